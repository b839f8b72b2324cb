// The controller, which does what its lines say.
ghost use Rattle.std.specs.Prelude.{◌≡◌, ◌≤◌, ◌<◌, ◌&&◌, [], not, false};
ghost use Rattle.peg_io.specs.Outside.{Rose};
ghost use Rattle.peg_meaning.specs.Roles as roles;
ghost use Rattle.peg_meaning.specs.Roles.{controls};
ghost use Rattle.peg_meaning.specs.Session as session;
ghost use Rattle.peg_session.specs.Took.{Took};

use crate::calls::{Call, is_refused};
use crate::phase::Phase;
use crate::printing::{push_number, push_said};
use peg_control::Controller;
use peg_event::{ControlDid, Said};
use peg_io::Sink;
use peg_packet::Post;
use peg_session::{Page, Stepped};
use peg_text::Text;

// At most `tries` sends of a line, and `waits` turns after each. While a line is carried out, it
// may still wait for a report.
#[derive(Drop)]
pub(crate) struct Console {
    pub(crate) controller: Controller,
    pub(crate) post: Post,
    pub(crate) base: u16,
    pub(crate) tries: u32,
    pub(crate) waits: u32,
    pub(crate) lines: u32,
    pub(crate) is_surveying: bool,
    pub(crate) phase: Phase,
}

impl Console {
    ghost use Rattle.peg_node.specs.Calls.{call_as};
    ghost use Rattle.peg_node.specs.Phases.{IsEither};
    ghost use Rattle.peg_node.specs.Consoles.{console_of, letters_of, console_rank, IsConsole};

    // The line is carried out.
    fn finish(&mut self)
        ensures { self.new ≡ record self.old { is_surveying = false; phase = Phase.Reading } }
    {
        self.is_surveying = false;
        self.phase = Phase::Reading;
    }

    // So many further sends and turns are left, unless the line is settled.
    fn wait_on(&mut self, sends: u32, turns: u32)
        requires few_sends { sends < 100 }
        requires few_turns { turns ≤ 1000 }
        ensures after { console_of self.new
            ≡ roles.waits_on (console_of self.old) sends turns }
        ensures same { self.new ≡ record self.old {
          is_surveying = self.new.is_surveying;
          phase = self.new.phase;
        } }
        ensures phase { IsEither self.new.phase sends turns }
        ensures console { IsConsole self.old → IsConsole self.new }
    {
        if self.controller.pending().is_none() && !self.is_surveying {
            self.finish();
        } else {
            self.phase = Phase::Awaiting { sends, turns };
        }
    }

    // Nothing is sent by the last step any more.
    pub(crate) fn clear(&mut self)
        requires console { IsConsole self.old }
        ensures empty { self.new.post.items ≡ [] }
        ensures same { console_of self.new ≡ console_of self.old }
        ensures phase { self.new.phase ≡ self.old.phase }
        ensures lines { self.new.lines ≡ self.old.lines }
        ensures controller { self.new.controller ≡ self.old.controller }
        ensures console { IsConsole self.new }
    {
        self.post.clear();
    }

    // Takes what a line says.
    #[tactic(auto, using(crate::proofs::ControlSteps::line_past))]
    pub(crate) fn call<K: Sink>(
        &mut self,
        call: &Call,
        text: &mut Text,
        page: &mut Page,
        sink: &mut K,
    ) -> Stepped
        requires console { IsConsole self.old }
        requires empty { self.old.post.items ≡ [] }
        requires reading { self.old.phase ≡ Phase.Reading }
        ensures took { Took controls (console_of self.old) (session.Entry (call_as call.now)) result
            (console_of self.new) [] (letters_of self.new)
            page.old page.new (K.held sink.old) (K.held sink.new) }
        ensures console { result ≡ Stepped.Goes → IsConsole self.new }
        ensures less { result ≡ Stepped.Goes → console_rank self.new < console_rank self.old }
        ensures rack { self.new.controller.rack ≡ self.old.controller.rack }
        ensures cause { result ≡ Stepped.Unwritten → Rose (K.faults sink.old) (K.faults sink.new) }
        ensures later { K.faults sink.old ≤ K.faults sink.new }
    {
        if self.lines == 1_000_000 {
            return Stepped::Past;
        }
        self.make(call, text, page, sink)
    }

    // Makes a call.
    #[tactic(auto, using(crate::proofs::ControlSteps::line_called, crate::proofs::ControlSteps::posted_items))]
    fn make<K: Sink>(
        &mut self,
        call: &Call,
        text: &mut Text,
        page: &mut Page,
        sink: &mut K,
    ) -> Stepped
        requires console { IsConsole self.old }
        requires empty { self.old.post.items ≡ [] }
        requires few { self.old.lines < 1000000 }
        requires reading { self.old.phase ≡ Phase.Reading }
        ensures took { Took controls (console_of self.old) (session.Entry (call_as call.now)) result
            (console_of self.new) [] (letters_of self.new)
            page.old page.new (K.held sink.old) (K.held sink.new) }
        ensures console { result ≡ Stepped.Goes → IsConsole self.new }
        ensures less { result ≡ Stepped.Goes → console_rank self.new < console_rank self.old }
        ensures rack { self.new.controller.rack ≡ self.old.controller.rack }
        ensures cause { result ≡ Stepped.Unwritten → Rose (K.faults sink.old) (K.faults sink.new) }
        ensures later { K.faults sink.old ≤ K.faults sink.new }
    {
        let said = call.make(&mut self.controller, &mut self.post);
        if !push_said(&said, text, page, sink) {
            return Stepped::Unwritten;
        }
        self.lines += 1;
        self.is_surveying = call.is_survey();
        if is_refused(&said) {
            self.finish();
            return Stepped::Goes;
        }
        self.wait_on(self.tries - 1, self.waits);
        Stepped::Goes
    }

    // A report is no longer waited for once it is taken.
    fn note(&mut self, did: &ControlDid)
        ensures { self.new ≡ record self.old {
          is_surveying = self.old.is_surveying && not (roles.is_report did.now);
        } }
    {
        if let ControlDid::HasReport { .. } = did {
            self.is_surveying = false;
        }
    }

    // Takes a datagram.
    #[tactic(auto, using(crate::proofs::ControlSteps::datagram_heard, crate::proofs::ControlSteps::few_left, crate::proofs::ControlSteps::posted_items))]
    pub(crate) fn hear<K: Sink>(
        &mut self,
        bytes: &[u8],
        sends: u32,
        turns: u32,
        text: &mut Text,
        page: &mut Page,
        sink: &mut K,
    ) -> Stepped
        requires console { IsConsole self.old }
        requires empty { self.old.post.items ≡ [] }
        requires awaiting { self.old.phase ≡ Phase.Awaiting sends turns }
        requires some { 1 ≤ turns }
        ensures took { Took controls (console_of self.old) (session.Datagram bytes.now) result
            (console_of self.new) [] (letters_of self.new)
            page.old page.new (K.held sink.old) (K.held sink.new) }
        ensures console { result ≡ Stepped.Goes → IsConsole self.new }
        ensures less { result ≡ Stepped.Goes → console_rank self.new < console_rank self.old }
        ensures rack { self.new.controller.rack ≡ self.old.controller.rack }
        ensures cause { result ≡ Stepped.Unwritten → Rose (K.faults sink.old) (K.faults sink.new) }
        ensures later { K.faults sink.old ≤ K.faults sink.new }
    {
        let did = self.controller.step(bytes, &mut self.post);
        if !push_said(&Said::Controller { did }, text, page, sink) {
            return Stepped::Unwritten;
        }
        self.note(&did);
        self.wait_on(sends, turns - 1);
        Stepped::Goes
    }

    // Nothing came.
    #[tactic(auto, using(crate::proofs::ControlSteps::pause_heard, crate::proofs::ControlSteps::few_left))]
    pub(crate) fn pause(&mut self, sends: u32, turns: u32)
        requires console { IsConsole self.old }
        requires empty { self.old.post.items ≡ [] }
        requires awaiting { self.old.phase ≡ Phase.Awaiting sends turns }
        requires some { 1 ≤ turns }
        ensures goes { controls.on (console_of self.old) session.Quiet
            ≡ session.Goes (session.begun (console_of self.new) [] (letters_of self.new)) }
        ensures console { IsConsole self.new }
        ensures less { console_rank self.new < console_rank self.old }
        ensures rack { self.new.controller.rack ≡ self.old.controller.rack }
    {
        self.wait_on(sends, turns - 1);
    }

    // What an unsettled line has the controller do again.
    fn call_again(&self) -> Call
        ensures { call_as result
            ≡ roles.call_again self.now.is_surveying self.now.controller.pending }
    {
        if self.is_surveying && self.controller.pending().is_none() {
            Call::Surveys
        } else {
            Call::Retries
        }
    }

    // Sends again, or says that nothing answered where no send is left.
    #[tactic(auto, using(crate::proofs::ControlSteps::called_again, crate::proofs::ControlSteps::posted_items))]
    pub(crate) fn again<K: Sink>(
        &mut self,
        sends: u32,
        text: &mut Text,
        page: &mut Page,
        sink: &mut K,
    ) -> Stepped
        requires console { IsConsole self.old }
        requires empty { self.old.post.items ≡ [] }
        requires awaiting { self.old.phase ≡ Phase.Awaiting sends 0 }
        ensures took { Took controls (console_of self.old) session.Tick result
            (console_of self.new) [] (letters_of self.new)
            page.old page.new (K.held sink.old) (K.held sink.new) }
        ensures console { result ≡ Stepped.Goes → IsConsole self.new }
        ensures less { result ≡ Stepped.Goes → console_rank self.new < console_rank self.old }
        ensures rack { self.new.controller.rack ≡ self.old.controller.rack }
        ensures cause { result ≡ Stepped.Unwritten → Rose (K.faults sink.old) (K.faults sink.new) }
        ensures later { K.faults sink.old ≤ K.faults sink.new }
    {
        if sends == 0 {
            return self.give_up(page, sink);
        }
        let said = self.call_again().make(&mut self.controller, &mut self.post);
        if !push_said(&said, text, page, sink) {
            return Stepped::Unwritten;
        }
        self.phase = Phase::Awaiting {
            sends: sends - 1,
            turns: self.waits,
        };
        Stepped::Goes
    }

    #[tactic(auto, using(crate::proofs::ControlSteps::given_up_survey, crate::proofs::ControlSteps::given_up_number))]
    fn give_up<K: Sink>(&mut self, page: &mut Page, sink: &mut K) -> Stepped
        requires console { IsConsole self.old }
        requires empty { self.old.post.items ≡ [] }
        requires awaiting { self.old.phase ≡ Phase.Awaiting 0 0 }
        ensures took { Took controls (console_of self.old) session.Tick result
            (console_of self.new) [] (letters_of self.new)
            page.old page.new (K.held sink.old) (K.held sink.new) }
        ensures console { result ≡ Stepped.Goes → IsConsole self.new }
        ensures less { result ≡ Stepped.Goes → console_rank self.new < console_rank self.old }
        ensures rack { self.new.controller.rack ≡ self.old.controller.rack }
        ensures cause { result ≡ Stepped.Unwritten → Rose (K.faults sink.old) (K.faults sink.new) }
        ensures later { K.faults sink.old ≤ K.faults sink.new }
    {
        match self.controller.pending() {
            None => {
                if !page.push(b"controller unanswered survey", sink) {
                    return Stepped::Unwritten;
                }
                self.finish();
                Stepped::Goes
            }
            Some(number) => {
                if !push_number(b"controller unanswered ", number, page, sink) {
                    return Stepped::Unwritten;
                }
                self.finish();
                Stepped::Goes
            }
        }
    }
}
