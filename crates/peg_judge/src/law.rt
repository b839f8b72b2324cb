// What a verdict says.
ghost use Rattle.std.specs.Prelude.{◌≡◌, ◌↔◌, List, ℕ};
ghost use Rattle.std.specs.List.{AllByRecursion};
ghost use Rattle.peg_event.specs.declared.history.Op.{Op};
ghost use Rattle.peg_event.specs.declared.history.Verdict.TheVariants.{Yes};
ghost use Rattle.peg_model.specs.Judge.{verdict_of};
ghost use Rattle.peg_model.specs.Register.{IsRegisterHistory};

/// For those who read a verdict: it is yes exactly where each order, which is a key with its
/// operations, is a register history of its key. It does nothing, and its contract is the law.
pub fn says_yes_of_histories()
    ensures { (ops : List Op) (key_orders : List (List ℕ × List ℕ))
        → (verdict_of ops key_orders ≡ Yes)
        ↔ AllByRecursion (λ o. IsRegisterHistory ops o.0 o.1) key_orders }
{}
