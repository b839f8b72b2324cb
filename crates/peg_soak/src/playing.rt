// A made workload, played on a rack.
ghost use Rattle.std.specs.Prelude.{◌≡◌, ◌≤◌, MatchResult};
ghost use Rattle.peg_meaning.specs.Workload.{soak_rack, soak_world};
ghost use Rattle.peg_soak.specs.Soaked.{Stopped};

use peg_gen::{Gen, Room};
use peg_name::{Config, Key};
use peg_session::End;
use peg_world::{Halt, World};
use std::alloc::Global;

fn rack() -> Config
    ensures { result ≡ soak_rack }
{
    Config::make(1, 4, 8, 2, 4, 8, 1).unwrap()
}

// The world after so many events of the generator of this number. The rack line has place 1.
pub(crate) fn played(alloc: Global, events: u64, start: u64) -> Result<World, End>
    requires { events ≤ 20000 }
    ensures { MatchResult result (λ w. w.world ≡ soak_world events start) (Stopped events start) }
{
    let keys: [Key; 0] = [];
    let Ok(mut world) = World::make(alloc, &rack(), &keys) else {
        return Err(End::OutOfMemory);
    };
    let mut generator = Gen::make(start);
    let mut room = Room::make();
    for done in 0..events {
        let number = done + 1;
        let event = generator.next(number, u64::from(world.packets()), &mut room);
        match world.step(number + 1, &event) {
            Ok(()) => {}
            Err(Halt::OutOfMemory) => return Err(End::OutOfMemory),
            Err(Halt::TooMuch) => return Err(End::TooMuch { line: number }),
        }
    }
    Ok(world)
}
