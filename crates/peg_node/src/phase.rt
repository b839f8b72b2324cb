// Where a word stands that reads lines, and for each sends until something comes of it.
ghost use Rattle.std.specs.Prelude.{◌≡◌};
ghost use Rattle.peg_meaning.specs.Roles as roles;

use peg_session::Want;

#[derive(Clone, Copy)]
pub(crate) enum Phase {
    Reading,
    // A line is carried out: so many further sends and, since the last one, turns are left.
    Awaiting { sends: u32, turns: u32 },
}

impl Phase {
    ghost use Rattle.peg_node.specs.Phases.{phase_as};

    // What is wanted: a line of at most so many bytes, or a turn into so many.
    pub(crate) fn want(self, limit: usize, room: usize) -> Want
        ensures { result ≡ roles.phase_want limit room (phase_as self) }
    {
        match self {
            Phase::Reading => Want::Line {
                limit,
                optional: true,
            },
            Phase::Awaiting { turns: 0, .. } => Want::Step,
            Phase::Awaiting { .. } => Want::Turn { slot: 0, room },
        }
    }
}
