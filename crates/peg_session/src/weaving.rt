// How lines and turns are woven.
ghost use Rattle.std.specs.Prelude.{◌≡◌};
ghost use Rattle.peg_meaning.specs.Session.{Came, Inputs, IsTaken, IsStep, state_of};
ghost use Rattle.peg_meaning.specs.Session.{entries_of, receipts_of};

use crate::Session;

/// For those who know what the lines of an input say and what the turns of a wire gave, each in its
/// order: what a session took of them is determined, and so is all that came of it. It says itself
/// how they are woven, and where it makes steps of its own.
#[tactic(auto, using(peg_meaning::proofs::Weaving::woven_alike))]
pub fn weaves_in_one_way<T: Session>()
    ensures { (start : Came T.State) (one other : Inputs T.Entry)
        → IsTaken T.meaning start one → IsTaken T.meaning start other
        → entries_of one ≡ entries_of other → receipts_of one ≡ receipts_of other
        → (IsStep (T.meaning.want (state_of T.meaning start one)) → ⊥)
        → (IsStep (T.meaning.want (state_of T.meaning start other)) → ⊥) → one ≡ other }
{}
