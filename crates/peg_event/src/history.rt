//! The operations of a history, and what the judge says of it.

use peg_name::{ClientId, Content, Key};

/// Whether an operation reads or writes. A delete is a write of the content absent.
#[derive(Clone, Copy, Debug, PartialEq, Eq)]
pub enum Act {
    Read,
    Write,
}

/// An operation of a history, with the places of the lines at which it was issued and answered. The
/// content of a read is what its answer gave, and absent until then.
#[derive(Debug, PartialEq, Eq, Drop)]
pub struct Op<'a> {
    pub client: ClientId,
    pub key: Key,
    pub act: Act,
    pub content: Content<'a>,
    pub issued: u64,
    pub answered: Option<u64>,
}

/// The first fault of an order, by the number of the operation that has it: it has no place in the
/// order, stands there twice, is a read of another content than the one written last, was answered
/// before an earlier one was issued, or is left out.
#[derive(Clone, Copy, Debug, PartialEq, Eq)]
pub enum Fault {
    Strange(u32),
    Twice(u32),
    Illegal(u32),
    Late { first: u32, place: u32 },
    Missing(u32),
}

/// What the judge says of a history and its orders.
#[derive(Clone, Copy, Debug, PartialEq, Eq)]
pub enum Verdict {
    Yes,
    No(Fault),
}
