// A client that asks for what its lines say.
ghost use Rattle.std.specs.Prelude.{◌≡◌, ◌≤◌, ◌<◌, [], true};
ghost use Rattle.peg_client.specs.Fits.{ask_fits};
ghost use Rattle.peg_io.specs.Outside.{Rose};
ghost use Rattle.peg_meaning.specs.Roles.{asks, is_answer};
ghost use Rattle.peg_meaning.specs.Session as session;
ghost use Rattle.peg_session.specs.Took.{Took};

use crate::phase::Phase;
use crate::printing::{push_answer, push_unanswered};
use peg_client::Client;
use peg_event::{Ask, ClientDid, Issue};
use peg_io::Sink;
use peg_name::Key;
use peg_packet::Post;
use peg_session::{Page, Stepped};
use peg_text::Text;

// At most `tries` sends of an operation, and `waits` turns after each.
#[derive(Drop)]
pub(crate) struct Asker {
    pub(crate) client: Client,
    pub(crate) post: Post,
    pub(crate) base: u16,
    pub(crate) tries: u32,
    pub(crate) waits: u32,
    pub(crate) lines: u32,
    pub(crate) phase: Phase,
}

fn is_answer(did: &ClientDid<'_>) -> bool
    ensures { result ≡ is_answer did.now }
{
    match did {
        ClientDid::Wrote { .. } | ClientDid::Read { .. } => true,
        ClientDid::Moved { .. } | ClientDid::Ignored => false,
    }
}

impl Asker {
    ghost use Rattle.peg_node.specs.Askers.{asker_of, letters_of, asker_rank, IsAsker};

    // Nothing is sent by the last step any more.
    pub(crate) fn clear(&mut self)
        requires asker { IsAsker self.old }
        ensures empty { self.new.post.items ≡ [] }
        ensures same { asker_of self.new ≡ asker_of self.old }
        ensures phase { self.new.phase ≡ self.old.phase }
        ensures lines { self.new.lines ≡ self.old.lines }
        ensures client { self.new.client ≡ self.old.client }
        ensures asker { IsAsker self.new }
    {
        self.post.clear();
    }

    // Takes what a line asks for.
    #[tactic(auto, using(crate::proofs::AskSteps::line_past))]
    pub(crate) fn issue<K: Sink>(
        &mut self,
        key: &Key,
        ask: &Ask<'_>,
        page: &mut Page,
        sink: &mut K,
    ) -> Stepped
        requires asker { IsAsker self.old }
        requires empty { self.old.post.items ≡ [] }
        requires reading { self.old.phase ≡ Phase.Reading }
        requires fits { ask_fits self.old.client.format ask.now ≡ true }
        ensures took { Took asks (asker_of self.old) (session.Entry (key.now, ask.now)) result
            (asker_of self.new) [] (letters_of self.new)
            page.old page.new (K.held sink.old) (K.held sink.new) }
        ensures asker { result ≡ Stepped.Goes → IsAsker self.new }
        ensures less { result ≡ Stepped.Goes → asker_rank self.new < asker_rank self.old }
        ensures format { self.new.client.format ≡ self.old.client.format }
        ensures cause { result ≡ Stepped.Unwritten → Rose (K.faults sink.old) (K.faults sink.new) }
        ensures later { K.faults sink.old ≤ K.faults sink.new }
    {
        if self.lines == 1_000_000 {
            return Stepped::Past;
        }
        self.begin(key, ask, page, sink)
    }

    // Begins the operation.
    #[tactic(auto, using(crate::proofs::AskSteps::line_issues, crate::proofs::AskSteps::posted_items, crate::proofs::Clients::issue_format, crate::proofs::Clients::issue_sent))]
    fn begin<K: Sink>(&mut self, key: &Key, ask: &Ask<'_>, page: &mut Page, sink: &mut K) -> Stepped
        requires asker { IsAsker self.old }
        requires empty { self.old.post.items ≡ [] }
        requires reading { self.old.phase ≡ Phase.Reading }
        requires few { self.old.lines < 1000000 }
        requires fits { ask_fits self.old.client.format ask.now ≡ true }
        ensures took { Took asks (asker_of self.old) (session.Entry (key.now, ask.now)) result
            (asker_of self.new) [] (letters_of self.new)
            page.old page.new (K.held sink.old) (K.held sink.new) }
        ensures asker { result ≡ Stepped.Goes → IsAsker self.new }
        ensures less { result ≡ Stepped.Goes → asker_rank self.new < asker_rank self.old }
        ensures format { self.new.client.format ≡ self.old.client.format }
        ensures cause { result ≡ Stepped.Unwritten → Rose (K.faults sink.old) (K.faults sink.new) }
        ensures later { K.faults sink.old ≤ K.faults sink.new }
    {
        self.lines += 1;
        match self.client.issue(key, ask, &mut self.post) {
            Issue::Sent { .. } => {
                self.phase = Phase::Awaiting {
                    sends: self.tries - 1,
                    turns: self.waits,
                };
                Stepped::Goes
            }
            Issue::Spent => {
                if !page.push(b"spent", sink) {
                    return Stepped::Unwritten;
                }
                Stepped::Goes
            }
            Issue::Busy { .. } => Stepped::Goes,
        }
    }

    // Takes a datagram.
    #[tactic(auto, using(crate::proofs::AskSteps::datagram_heard, crate::proofs::Clients::bytes_format))]
    pub(crate) fn hear<K: Sink>(
        &mut self,
        bytes: &[u8],
        sends: u32,
        turns: u32,
        text: &mut Text,
        page: &mut Page,
        sink: &mut K,
    ) -> Stepped
        requires asker { IsAsker self.old }
        requires empty { self.old.post.items ≡ [] }
        requires awaiting { self.old.phase ≡ Phase.Awaiting sends turns }
        requires some { 1 ≤ turns }
        ensures took { Took asks (asker_of self.old) (session.Datagram bytes.now) result
            (asker_of self.new) [] (letters_of self.new)
            page.old page.new (K.held sink.old) (K.held sink.new) }
        ensures asker { result ≡ Stepped.Goes → IsAsker self.new }
        ensures less { result ≡ Stepped.Goes → asker_rank self.new < asker_rank self.old }
        ensures format { self.new.client.format ≡ self.old.client.format }
        ensures cause { result ≡ Stepped.Unwritten → Rose (K.faults sink.old) (K.faults sink.new) }
        ensures later { K.faults sink.old ≤ K.faults sink.new }
    {
        let did = self.client.step(bytes);
        if is_answer(&did) {
            if !push_answer(did, text, page, sink) {
                return Stepped::Unwritten;
            }
            self.phase = Phase::Reading;
            return Stepped::Goes;
        }
        let turns = turns - 1;
        self.phase = Phase::Awaiting { sends, turns };
        Stepped::Goes
    }

    // Nothing came.
    #[tactic(auto, using(crate::proofs::AskSteps::pause_heard))]
    pub(crate) fn pause(&mut self, sends: u32, turns: u32)
        requires asker { IsAsker self.old }
        requires empty { self.old.post.items ≡ [] }
        requires awaiting { self.old.phase ≡ Phase.Awaiting sends turns }
        requires some { 1 ≤ turns }
        ensures goes { asks.on (asker_of self.old) session.Quiet
            ≡ session.Goes (session.begun (asker_of self.new) [] (letters_of self.new)) }
        ensures asker { IsAsker self.new }
        ensures less { asker_rank self.new < asker_rank self.old }
        ensures format { self.new.client.format ≡ self.old.client.format }
    {
        let turns = turns - 1;
        self.phase = Phase::Awaiting { sends, turns };
    }

    // Sends the operation again, or gives it up where no send is left.
    #[tactic(auto, using(crate::proofs::AskSteps::asked_again, crate::proofs::AskSteps::posted_items, crate::proofs::Clients::resend_format, crate::proofs::Clients::resend_sent))]
    pub(crate) fn again<K: Sink>(&mut self, sends: u32, page: &mut Page, sink: &mut K) -> Stepped
        requires asker { IsAsker self.old }
        requires empty { self.old.post.items ≡ [] }
        requires awaiting { self.old.phase ≡ Phase.Awaiting sends 0 }
        ensures took { Took asks (asker_of self.old) session.Tick result
            (asker_of self.new) [] (letters_of self.new)
            page.old page.new (K.held sink.old) (K.held sink.new) }
        ensures asker { result ≡ Stepped.Goes → IsAsker self.new }
        ensures less { result ≡ Stepped.Goes → asker_rank self.new < asker_rank self.old }
        ensures format { self.new.client.format ≡ self.old.client.format }
        ensures cause { result ≡ Stepped.Unwritten → Rose (K.faults sink.old) (K.faults sink.new) }
        ensures later { K.faults sink.old ≤ K.faults sink.new }
    {
        if sends == 0 {
            return self.give_up(page, sink);
        }
        self.client.resend(&mut self.post);
        self.phase = Phase::Awaiting {
            sends: sends - 1,
            turns: self.waits,
        };
        Stepped::Goes
    }

    #[tactic(auto, using(crate::proofs::AskSteps::given_up, crate::proofs::Clients::give_up_format))]
    fn give_up<K: Sink>(&mut self, page: &mut Page, sink: &mut K) -> Stepped
        requires asker { IsAsker self.old }
        requires empty { self.old.post.items ≡ [] }
        requires awaiting { self.old.phase ≡ Phase.Awaiting 0 0 }
        ensures took { Took asks (asker_of self.old) session.Tick result
            (asker_of self.new) [] (letters_of self.new)
            page.old page.new (K.held sink.old) (K.held sink.new) }
        ensures asker { result ≡ Stepped.Goes → IsAsker self.new }
        ensures less { result ≡ Stepped.Goes → asker_rank self.new < asker_rank self.old }
        ensures format { self.new.client.format ≡ self.old.client.format }
        ensures cause { result ≡ Stepped.Unwritten → Rose (K.faults sink.old) (K.faults sink.new) }
        ensures later { K.faults sink.old ≤ K.faults sink.new }
    {
        let Some(seq) = self.client.give_up() else {
            self.phase = Phase::Reading;
            return Stepped::Goes;
        };
        if !push_unanswered(&seq, page, sink) {
            return Stepped::Unwritten;
        }
        self.phase = Phase::Reading;
        Stepped::Goes
    }
}
