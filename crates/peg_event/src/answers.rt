//! What the calls of the nodes answer.

use peg_name::{Content, Holders, Key, Seq, ServerId, SwitchId, Version};

/// What a write is stamped with: a new version, the version that it has already, or none, since a
/// later write of its client was stamped or no version is left.
#[derive(Clone, Copy, Debug, PartialEq, Eq)]
pub enum Stamp {
    New(Version),
    Same(Version),
    Stale { last: Seq },
    Exhausted,
}

/// Where a request goes.
#[derive(Clone, Copy, Debug, PartialEq, Eq)]
pub enum Forward {
    To { server: ServerId, version: Version },
    Stale { last: Seq },
    Exhausted { next: Version },
}

/// What a promotion came to.
#[derive(Clone, Copy, Debug, PartialEq, Eq)]
pub enum Promoted {
    Listed,
    Already { listing: u64 },
    Full { count: u64 },
    NoVersion { next: Version },
}

/// What a demotion came to.
#[derive(Clone, Copy, Debug, PartialEq, Eq)]
pub enum MarkDid {
    NotListed,
    AlreadyMarked { mark: Version },
    Marked { mark: Version },
}

/// Who copies a key.
#[derive(Clone, Copy, Debug, PartialEq, Eq)]
pub enum CopyFrom {
    NotListed,
    Holds,
    From(ServerId),
}

/// What a directory keeps of a listed key: the number of the command that listed it, the version
/// that the listing took, the greatest version that some server is known to hold, the servers that
/// are known to hold that one, and a mark where the entry is to go.
#[derive(Clone, Copy, Debug, PartialEq, Eq)]
pub struct Listing {
    pub listing: u64,
    pub base: Version,
    pub completed: Version,
    pub holders: Holders,
    pub mark: Option<Version>,
}

/// Where a key is fenced, and at which version.
#[derive(Clone, Copy, Debug, PartialEq, Eq)]
pub enum FenceOf {
    NotListed,
    NoBase,
    At { home: ServerId, base: Version },
}

/// What an operation asks for. A delete is a write of the content absent.
#[derive(Debug, PartialEq, Eq, Drop)]
pub enum Ask<'a> {
    Read,
    Write(Content<'a>),
}

/// The operation of a client that waits for its answer.
#[derive(Debug, PartialEq, Eq, Drop)]
pub struct Pending<'a> {
    pub seq: Seq,
    pub key: Key,
    pub ask: Ask<'a>,
}

/// What came of an operation that was to begin.
#[derive(Clone, Copy, Debug, PartialEq, Eq)]
pub enum Issue {
    Busy { seq: Seq },
    Spent,
    Sent { seq: Seq },
}

/// What came of a command that was to be ordered.
#[derive(Clone, Copy, Debug, PartialEq, Eq)]
pub enum Order {
    Busy { pending: u64 },
    Spent { last: u64 },
    NoSuch { target: u8 },
    SameSwitch { switch: SwitchId },
    Sent { number: u64 },
}

/// What was sent again.
#[derive(Clone, Copy, Debug, PartialEq, Eq)]
pub enum Retry {
    Command { number: u64 },
    Announced { epoch: u64 },
}

/// What came of a plan.
#[derive(Clone, Copy, Debug, PartialEq, Eq)]
pub enum Plan {
    Busy { pending: u64 },
    Spent { last: u64 },
    NoReport,
    Planned { demotes: u64, promotes: u64 },
}

/// What a server keeps of a key: its version and content, and the numbers that its fences left.
#[derive(Debug, PartialEq, Eq, Drop)]
pub struct Stored<'a> {
    pub version: Version,
    pub content: Content<'a>,
    pub low: Version,
    pub floor: Version,
    pub old: Version,
}

/// What a store did with a copy.
#[derive(Clone, Copy, Debug, PartialEq, Eq)]
pub enum Apply {
    Applied,
    Kept { held: Version },
}

/// What a store did with a write.
#[derive(Clone, Copy, Debug, PartialEq, Eq)]
pub enum WriteDid {
    Applied,
    Kept { held: Version },
    Void { floor: Version },
    Barred { old: Version },
}

/// What a store did with a fence.
#[derive(Clone, Copy, Debug, PartialEq, Eq)]
pub enum FenceDid {
    Fenced { held: Version },
    Kept { held: Version },
}
