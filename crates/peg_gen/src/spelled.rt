// Keys, values and junk, spelled from numbers.
ghost use Rattle.std.specs.Prelude.{◌≡◌, ◌<◌, ◌≤◌, ◌∷◌, ◌++◌, length, codes, decimal};
ghost use Rattle.peg_model.specs.Packet.{eight};
ghost use Rattle.peg_meaning.specs.Workload.{popular_key, weight_above};

use arrayvec::ArrayVec;
use itoa::Buffer;
use peg_event::Junk;
use peg_name::{Key, Value};

/// Room for the value or the junk of an event.
#[derive(Drop)]
pub struct Room {
    bytes: ArrayVec<u8, 24>,
}

// How many of 336 draws each key has.
const WEIGHTS: [u64; 16] = [128, 64, 32, 16, 8, 8, 8, 8, 8, 8, 8, 8, 8, 8, 8, 8];

impl Room {
    /// Room, with nothing in it.
    pub fn make() -> Room {
        Room {
            bytes: ArrayVec::new(),
        }
    }

    // A letter with a number behind it.
    fn spell(&mut self, letter: u8, number: u64) -> &[u8]
        ensures bytes { result.now ≡ letter ∷ decimal number }
        ensures few { length result.now ≤ 21 }
    {
        self.bytes.clear();
        self.bytes.push(letter);
        let mut buffer = Buffer::new();
        self.bytes
            .try_extend_from_slice(buffer.format(number).as_bytes())
            .unwrap();
        self.bytes.as_slice()
    }
}

// The number of the first weight that, with all before it, is above `r`.
fn weight_above(r: u64, weights: &[u64]) -> u64
    ensures { result ≡ weight_above r weights.now }
{
    let mut left = r;
    for (j, weight) in weights.iter().enumerate() {
        if left < *weight {
            return j as u64;
        }
        left -= *weight;
    }
    weights.len() as u64
}

// The key that a number below 336 stands for.
pub(crate) fn popular_key(r: u64) -> Key
    ensures { result ≡ popular_key r }
{
    let mut room = Room::make();
    Key::read(room.spell(b'k', weight_above(r, &WEIGHTS))).unwrap()
}

// The value that the event of a number writes.
pub(crate) fn value_of<'a>(number: u64, room: &'a mut Room) -> Value<'a>
    ensures { result ≡ codes "v" ++ decimal number }
{
    Value::read(room.spell(b'v', number)).unwrap()
}

// The eight bytes of a number.
pub(crate) fn bytes_of<'a>(number: u64, room: &'a mut Room) -> Junk<'a>
    ensures { result ≡ eight number }
{
    room.bytes.clear();
    room.bytes
        .try_extend_from_slice(&number.to_be_bytes())
        .unwrap();
    Junk::make(room.bytes.as_slice())
}
