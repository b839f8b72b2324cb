//! The lines of operations, read.
ghost use Rattle.std.specs.Prelude.{◌≡◌, ℕ, IfSome, option_map, codes};
ghost use Rattle.peg_model.specs.Judge.{IsOpLine};
ghost use Rattle.peg_event.specs.declared.history.Op as book;
ghost use Rattle.peg_text.specs.Reading.{words_of};
ghost use Rattle.peg_text.specs.Ops as ops;

use crate::words::{Words, is};
use peg_event::{Act, Op};
use peg_name::{ClientId, Content};

fn read_issued(words: &mut Words<'_>) -> Option<u64>
    ensures { option_map (λ issued. ((tt, issued), words.new)) result ≡ ops.read_issued words.old }
{
    words.literal(b"issued")?;
    words.number()
}

fn read_given<'a>(
    words: &mut Words<'a>,
    room: &'a mut [u8; 1024],
) -> Option<Option<(u64, Content<'a>)>>
    ensures { option_map (λ given. (given, words.new)) result ≡ ops.read_given words.old }
{
    let word = words.next()?;
    if is(word, b"open") {
        Some(None)
    } else if is(word, b"answered") {
        let at = words.number()?;
        let content = words.content(room)?;
        Some(Some((at, content)))
    } else {
        None
    }
}

fn read_end(words: &mut Words<'_>) -> Option<Option<u64>>
    ensures { option_map (λ end. (end, words.new)) result ≡ ops.read_end words.old }
{
    let word = words.next()?;
    if is(word, b"open") {
        Some(None)
    } else if is(word, b"answered") {
        Some(Some(words.number()?))
    } else {
        None
    }
}

fn read_read<'a>(
    client: ClientId,
    words: &mut Words<'a>,
    room: &'a mut [u8; 1024],
) -> Option<Op<'a>>
    ensures { option_map (λ op. (op, words.new)) result
        ≡ ops.op_by client (codes "read") words.old }
{
    let key = words.key()?;
    let issued = read_issued(words)?;
    let (answered, content) = match read_given(words, room)? {
        Some((at, content)) => (Some(at), content),
        None => (None, Content::Absent),
    };
    Some(Op {
        client,
        key,
        act: Act::Read,
        content,
        issued,
        answered,
    })
}

fn read_write<'a>(
    client: ClientId,
    words: &mut Words<'a>,
    room: &'a mut [u8; 1024],
) -> Option<Op<'a>>
    ensures { option_map (λ op. (op, words.new)) result
        ≡ ops.op_by client (codes "write") words.old }
{
    let key = words.key()?;
    let content = words.content(room)?;
    let issued = read_issued(words)?;
    let answered = read_end(words)?;
    Some(Op {
        client,
        key,
        act: Act::Write,
        content,
        issued,
        answered,
    })
}

fn read_tail<'a>(
    client: ClientId,
    words: &mut Words<'a>,
    room: &'a mut [u8; 1024],
) -> Option<Op<'a>>
    ensures { option_map (λ op. (op, words.new)) result ≡ ops.read_tail client words.old }
{
    let verb = words.next()?;
    if is(verb, b"read") {
        read_read(client, words, room)
    } else if is(verb, b"write") {
        read_write(client, words, room)
    } else {
        None
    }
}

fn read_op<'a>(words: &mut Words<'a>, room: &'a mut [u8; 1024]) -> Option<(u32, Op<'a>)>
    ensures { option_map (λ op. (op, words.new)) result ≡ ops.read_op words.old }
{
    words.literal(b"op")?;
    let number = words.number_below(4294967296)?;
    words.literal(b"client")?;
    let client = words.number_below(1024)?;
    let op = read_tail(ClientId(client as u16), words, room)?;
    Some((number as u32, op))
}

// An operation is issued behind the rack line, and answered later.
fn is_timed(op: &Op<'_>) -> bool
    ensures { result ≡ ops.is_timed op.now }
{
    if op.issued < 2 {
        return false;
    }
    match op.answered {
        Some(at) => op.issued < at,
        None => true,
    }
}

fn op_in<'a>(line: &'a [u8], room: &'a mut [u8; 1024]) -> Option<(u32, Op<'a>)>
    ensures { result ≡ ops.op_of line.entry.now }
{
    let mut words = Words::of(line);
    let (number, op) = read_op(&mut words, room)?;
    if words.next().is_some() || !is_timed(&op) {
        return None;
    }
    Some((number, op))
}

/// What an operation's line says: its number, and the operation. `None`: it is outside the grammar.
/// The content is lent from the line or from the room, where it is put as the line spells it.
pub fn op_of<'a>(line: &'a [u8], room: &'a mut [u8; 1024]) -> Option<(u32, Op<'a>)>
    ensures sound { IfSome result (λ r. IsOpLine line.entry.now r.0 r.1) }
    ensures complete { (number : ℕ) (op : book.Op) → IsOpLine line.entry.now number op → result
        ≡ Some (number, op) }
{
    op_in(line, room)
}
