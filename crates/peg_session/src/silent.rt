// The source of a session that wants no lines.
ghost use Rattle.std.specs.Prelude.{◌≡◌, ◌<◌, ◌≤◌, Some, [], length};
ghost use Rattle.peg_io.specs.Outside.{Rose, Reads};

use peg_io::{Got, Source};

/// A source with no byte, which never fails.
#[derive(Drop)]
pub struct NoSource {
    reads: u64,
}

impl NoSource {
    /// The source.
    pub fn make() -> NoSource {
        NoSource { reads: 0 }
    }
}

impl Source for NoSource {
    ghost left = { λ _. Some [] };

    ghost faults = { λ _. 0 };

    fn read(&mut self, _buf: &mut [u8]) -> Got {
        self.reads = self.reads.saturating_add(1);
        Got::End
    }
}
