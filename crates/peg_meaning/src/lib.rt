//! What each word of the program means: what it wants next, and what it makes of what it takes. It
//! goes on from the book of the rack in `peg_model`.
#![tactic(auto)]

/// What a session takes next.
#[derive(Clone, Copy, Debug, PartialEq, Eq)]
pub enum Want {
    /// A line of at most so many bytes; where it is optional, the input may end in its place.
    Line { limit: usize, optional: bool },
    /// A turn of the port that the session bound at this place, from 0, into so many bytes.
    Turn { slot: u32, room: usize },
    /// A step of its own, with nothing taken.
    Step,
    /// Nothing.
    Over,
}
