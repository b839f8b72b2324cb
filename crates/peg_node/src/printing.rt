// The lines that a client and the controller write.
ghost use Rattle.std.specs.Prelude.{◌≡◌, ◌≤◌, ◌<◌, ◌++◌, length, drop, codes, decimal};
ghost use Rattle.std.specs.Bool.{OnFalse};
ghost use Rattle.peg_io.specs.Outside.{Rose};
ghost use Rattle.peg_model.specs.Schedule.{fed};
ghost use Rattle.peg_model.specs.Trace.{said_text, client_text};
ghost use Rattle.peg_session.specs.Pages.{Passes};

use arrayvec::ArrayVec;
use itoa::Buffer;
use peg_event::{ClientDid, Said};
use peg_io::Sink;
use peg_name::{ClientId, Seq};
use peg_session::Page;
use peg_text::{Text, said_text};

// A word and a number.
pub(crate) fn push_number<K: Sink>(word: &[u8], number: u64, page: &mut Page, sink: &mut K) -> bool
    requires { length word.now ≤ 44 }
    ensures content { Passes result (fed (word.now ++ decimal number))
        page.old page.new (K.held sink.old) (K.held sink.new) }
    ensures cause { OnFalse result (Rose (K.faults sink.old) (K.faults sink.new)) }
    ensures later { K.faults sink.old ≤ K.faults sink.new }
{
    let mut line: ArrayVec<u8, 64> = ArrayVec::new();
    let mut buffer = Buffer::new();
    line.try_extend_from_slice(word).unwrap();
    line.try_extend_from_slice(buffer.format(number).as_bytes())
        .unwrap();
    page.push(line.as_slice(), sink)
}

fn number_of(seq: &Seq) -> u64
    ensures { result ≡ seq.now }
{
    seq.0
}

// The operation of this number is not answered.
pub(crate) fn push_unanswered<K: Sink>(seq: &Seq, page: &mut Page, sink: &mut K) -> bool
    ensures content { Passes result (fed (codes "unanswered " ++ decimal seq.now))
        page.old page.new (K.held sink.old) (K.held sink.new) }
    ensures cause { OnFalse result (Rose (K.faults sink.old) (K.faults sink.new)) }
    ensures later { K.faults sink.old ≤ K.faults sink.new }
{
    push_number(b"unanswered ", number_of(seq), page, sink)
}

// What an outcome says.
pub(crate) fn push_said<K: Sink>(
    said: &Said<'_>,
    text: &mut Text,
    page: &mut Page,
    sink: &mut K,
) -> bool
    ensures content { Passes result (fed (said_text said.now))
        page.old page.new (K.held sink.old) (K.held sink.new) }
    ensures cause { OnFalse result (Rose (K.faults sink.old) (K.faults sink.new)) }
    ensures later { K.faults sink.old ≤ K.faults sink.new }
{
    said_text(said, text);
    page.push(text.bytes(), sink)
}

// A line without the words `client 0` that it begins with.
fn push_behind<K: Sink>(text: &Text, page: &mut Page, sink: &mut K) -> bool
    requires { 9 ≤ length text.now }
    ensures content { Passes result (fed (drop 9 text.now))
        page.old page.new (K.held sink.old) (K.held sink.new) }
    ensures cause { OnFalse result (Rose (K.faults sink.old) (K.faults sink.new)) }
    ensures later { K.faults sink.old ≤ K.faults sink.new }
{
    page.push(&text.bytes()[9..], sink)
}

// What a client did, as the line of a trace says it.
#[tactic(auto, using(crate::proofs::ClientTexts::long_enough, crate::proofs::ClientTexts::behind_client))]
pub(crate) fn push_answer<K: Sink>(
    did: ClientDid<'_>,
    text: &mut Text,
    page: &mut Page,
    sink: &mut K,
) -> bool
    ensures content { Passes result (fed (client_text did.entry))
        page.old page.new (K.held sink.old) (K.held sink.new) }
    ensures cause { OnFalse result (Rose (K.faults sink.old) (K.faults sink.new)) }
    ensures later { K.faults sink.old ≤ K.faults sink.new }
{
    let client = ClientId(0);
    said_text(&Said::Client { client, did }, text);
    push_behind(text, page, sink)
}
