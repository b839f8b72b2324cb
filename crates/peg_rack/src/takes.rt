// What a line still has to take.
use peg_name::Node;

#[derive(Clone, Copy, Debug, PartialEq, Eq)]
pub(crate) enum Takes {
    Nothing,
    // One receive at a node, with this pick.
    One { node: Node, pick: u64 },
    // One receive at each node from this place on.
    Round { next: u32 },
}
