// The line that says the verdict.
ghost use Rattle.std.specs.Prelude.{◌≡◌, ◌+◌, ◌≤◌, ◌++◌, [], length, decimal};
ghost use Rattle.peg_model.specs.Judge as judge;

use arrayvec::ArrayVec;
use itoa::Buffer;
use peg_event::{Fault, Verdict};

// A line of at most so many bytes.
pub(crate) type Line = ArrayVec<u8, 128>;

fn push(out: &mut Line, bytes: &[u8])
    requires { length out.old.items + length bytes.now ≤ 128 }
    ensures text { out.new.items ≡ out.old.items ++ bytes.now }
    ensures room { length out.new.items ≡ length out.old.items + length bytes.now }
{
    out.try_extend_from_slice(bytes).unwrap();
}

// Pushes a word and a number.
fn push_number(out: &mut Line, word: &[u8], number: u64)
    requires { length out.old.items + length word.now + 20 ≤ 128 }
    ensures text { out.new.items ≡ out.old.items ++ (word.now ++ decimal number) }
    ensures room { length out.new.items ≤ length out.old.items + length word.now + 20 }
{
    let mut buffer = Buffer::new();
    push(out, word);
    push(out, buffer.format(number).as_bytes());
}

fn push_fault(out: &mut Line, fault: &Fault)
    requires { length out.old.items ≤ 3 }
    ensures text { out.new.items ≡ out.old.items ++ judge.fault_text fault.now }
    ensures room { length out.new.items ≤ 128 }
{
    match fault {
        Fault::Strange(place) => push_number(out, b"strange ", u64::from(*place)),
        Fault::Twice(place) => push_number(out, b"twice ", u64::from(*place)),
        Fault::Illegal(place) => push_number(out, b"illegal ", u64::from(*place)),
        Fault::Late { first, place } => {
            push_number(out, b"late ", u64::from(*first));
            push_number(out, b" ", u64::from(*place));
        }
        Fault::Missing(place) => push_number(out, b"missing ", u64::from(*place)),
    }
}

// The verdict on so many operations of so many keys.
pub(crate) fn verdict_text(verdict: &Verdict, operations: u64, keys: u64, out: &mut Line)
    ensures text { out.new.items ≡ judge.verdict_text verdict.now operations keys }
    ensures room { length out.new.items ≤ 128 }
{
    out.clear();
    match verdict {
        Verdict::Yes => {
            push_number(out, b"yes ", operations);
            push_number(out, b" operations ", keys);
            push(out, b" keys");
        }
        Verdict::No(fault) => {
            push(out, b"no ");
            push_fault(out, fault);
        }
    }
}
