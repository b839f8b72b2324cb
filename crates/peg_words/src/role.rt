// The nodes that the program runs.
use arrayvec::ArrayVec;
use peg_name::{ClientId, Seq, ServerId, SwitchId};

/// Which node of the rack is run, and for how long.
#[derive(Debug, Drop)]
pub enum Role {
    /// This switch, for so many turns, at most 1,000,000,000.
    Switch {
        switch: SwitchId,
        turns: u32,
    },
    /// This switch, which sends each request to the server of least load for its weight, for so many
    /// turns, at most 1,000,000,000. There is a weight for each server, from 1 to 1,000.
    Balanced {
        switch: SwitchId,
        turns: u32,
        weights: ArrayVec<u32, 64>,
    },
    /// This server, for so many turns, at most 1,000,000,000.
    Server {
        server: ServerId,
        turns: u32,
    },
    /// The controller, over the lines that are read. Each is sent at most `tries` times, from 1 to
    /// 100, with `waits` turns after each, at most 1,000.
    Control {
        tries: u32,
        waits: u32,
    },
    /// This client, over the lines that are read. Its first operation has the number `first`; tries
    /// and waits as the controller's.
    Ask {
        client: ClientId,
        first: Seq,
        tries: u32,
        waits: u32,
    },
}
