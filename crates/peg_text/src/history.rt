//! The text of each operation, order and count.

ghost use Rattle.std.specs.Prelude.{◌≡◌, ◌+◌, ◌≤◌, ◌++◌, length, codes, decimal};
ghost use Rattle.peg_model.specs.Trace as trace;
ghost use Rattle.peg_text.specs.Rest.{end_text, rest_text};

use crate::text::Text;
use peg_event::{Act, Op};
use peg_name::Key;

fn push_issued(op: &Op<'_>, out: &mut Text)
    requires { length out.old + 60 ≤ 4096 }
    ensures text { out.new
        ≡ out.old ++ (codes " issued " ++ decimal op.now.issued ++ end_text op.now.answered) }
    ensures room { length out.new ≤ length out.old + 60 }
{
    out.push_word_number(b" issued ", op.issued);
    match op.answered {
        Some(at) => out.push_word_number(b" answered ", at),
        None => out.push_bytes(b" open"),
    }
}

// An answered read says what it was given.
fn push_read(op: &Op<'_>, out: &mut Text)
    requires room { length out.old + 3300 ≤ 4096 }
    requires read { op.now.act ≡ Act.Read }
    ensures { out.new ≡ out.old ++ rest_text op.now }
{
    out.push_word_key(b"read ", &op.key);
    push_issued(op, out);
    if op.answered.is_some() {
        out.push_bytes(b" ");
        out.push_content(&op.content);
    }
}

fn push_write(op: &Op<'_>, out: &mut Text)
    requires room { length out.old + 3300 ≤ 4096 }
    requires write { op.now.act ≡ Act.Write }
    ensures { out.new ≡ out.old ++ rest_text op.now }
{
    out.push_word_key(b"write ", &op.key);
    out.push_bytes(b" ");
    out.push_content(&op.content);
    push_issued(op, out);
}

/// Prints the line of an operation of a history.
pub fn op_text(number: u32, op: &Op<'_>, out: &mut Text)
    ensures { out.new ≡ trace.op_text number op.now }
{
    out.clear();
    out.push_word_number(b"op ", u64::from(number));
    out.push_client(b" client ", &op.client);
    out.push_bytes(b" ");
    match op.act {
        Act::Read => push_read(op, out),
        Act::Write => push_write(op, out),
    }
}

/// Prints the line `order`: a key and how many places its order has.
pub fn order_text(key: &Key, count: u32, out: &mut Text)
    ensures { out.new ≡ trace.order_text key.now count }
{
    out.clear();
    out.push_word_key(b"order ", key);
    out.push_word_number(b" ", u64::from(count));
}

/// Prints the line `history`: how many operations follow.
pub fn history_text(count: u32, out: &mut Text)
    ensures { out.new ≡ codes "history " ++ decimal count }
{
    out.clear();
    out.push_word_number(b"history ", u64::from(count));
}

/// Prints the line `datagrams`: how many a node took.
pub fn datagrams_text(count: u64, out: &mut Text)
    ensures { out.new ≡ codes "datagrams " ++ decimal count }
{
    out.clear();
    out.push_word_number(b"datagrams ", count);
}

/// Prints the line `at`: a place of an order.
pub fn place_text(place: u32, out: &mut Text)
    ensures { out.new ≡ codes "at " ++ decimal place }
{
    out.clear();
    out.push_word_number(b"at ", u64::from(place));
}
