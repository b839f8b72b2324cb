// The reader of lines.
ghost use Rattle.std.specs.Prelude.{◌≡◌, ℕ, ◌+◌, ◌<◌, ◌≤◌, ◌==◌, [], ◌++◌, length, take, drop};
ghost use Rattle.std.specs.Prelude.{position, if◌then◌else◌, true, false};
ghost use Rattle.std.specs.Bool.{OnTrue, OnFalse};
ghost use Rattle.peg_io.specs.Outside.{Rose, Reads, Tells};
ghost use Rattle.peg_io.specs.Lines.{Gives, Keeps, HasNoFeed, line_of, past_line, Fills, IsReady};
ghost use Rattle.peg_io.specs.Lines.{EndsAt};
ghost use Rattle.peg_io.specs.Lines.{has_feed};
ghost use Rattle.peg_io.specs.Lines.{TakesPart};

use crate::{Got, Source};
use std::marker::Model;

/// What the next line came to.
#[derive(Clone, Copy, Debug, PartialEq, Eq)]
pub enum NextLine {
    /// A line is there.
    Line,
    /// A line has more bytes than the limit.
    TooLong,
    /// The input ended with no byte of a further line.
    End,
    /// The source failed.
    Failed,
}

/// Reads the lines of a source: a buffer of 4,096 bytes, and one line of at most 4,096 bytes in
/// place.
#[derive(Drop)]
pub struct Lines {
    buf: [u8; 4096],
    start: usize,
    end: usize,
    line: [u8; 4096],
    len: usize,
    // How many bytes stand before the first line feed of those that are read ahead.
    feed: usize,
    // The source said its end, and is not asked again.
    ended: bool,
}

impl Model for Lines {
    ghost use Rattle.peg_io.specs.Lines.{ReadAhead, InPlace};
    ghost use Rattle.std.specs.Prelude.{take, slice_range};

    ghost Value = { ReadAhead };

    ghost view = { λ l.
        record {
          held = slice_range l.buf l.start l.end;
          line = take l.len l.line;
          ended = l.ended;
        } };

    ghost invariant = { λ l. InPlace l.buf l.start l.end l.line l.len l.feed l.ended };
}

impl Lines {
    /// A reader that holds nothing.
    pub fn make() -> Lines
        ensures { result ≡ record { held = []; line = []; ended = false } }
    {
        Lines {
            buf: [0; 4096],
            start: 0,
            end: 0,
            line: [0; 4096],
            len: 0,
            feed: 0,
            ended: false,
        }
    }

    /// Reads the next line, of at most `limit` bytes without its line feed. Nothing of the input is
    /// lost by an answer: what wasn't given stays read ahead, and after `TooLong` and `Failed` the
    /// taken bytes of the line are the line in place. The source is not asked where a line feed is
    /// read ahead, nor after it said its end: so a last line without a line feed is followed by
    /// `End`.
    pub fn next<S: Source>(&mut self, limit: usize, source: &mut S) -> NextLine
        requires { limit ≤ 4096 }
        ensures content { self.old.ended ≡ false → Tells (S.left source.old) (S.left source.new)
            (λ b n. Gives result limit (self.old.held ++ b) self.new n) }
        ensures over { self.old.ended ≡ true
            → (result ≡ NextLine.End) × (source.new ≡ source.old) }
        ensures keeps { Keeps result limit self.new }
        ensures ahead { has_feed self.old.held ≡ true → source.new ≡ source.old }
        ensures cause { result ≡ NextLine.Failed
            → Rose (S.faults source.old) (S.faults source.new) }
        ensures later { S.faults source.old ≤ S.faults source.new }
    {
        self.begin();
        loop {
            match self.ready(source) {
                Got::Bytes(_) => {}
                Got::End => return self.last(),
                Got::Failed => return NextLine::Failed,
            }
            if let Some(answer) = self.take(limit) {
                return answer;
            }
        }
    }

    /// The last line, without its line feed.
    pub fn line(&self) -> &[u8]
        ensures { result.now ≡ self.now.line }
    {
        &self.line[..self.len]
    }

    /// Whether a line feed is among the bytes that are read ahead, so that the next line is given
    /// without a read.
    pub fn holds_line(&self) -> bool
        ensures { result ≡ has_feed self.now.held }
    {
        self.feed_place() < self.end - self.start
    }

    fn begin(&mut self)
        ensures { self.new ≡ record self.old { line = [] } }
    {
        self.len = 0;
    }

    fn is_spent(&self) -> bool
        ensures spent { OnTrue result (self.now.held ≡ []) }
        ensures more { OnFalse result (0 < length self.now.held) }
    {
        self.start == self.end
    }

    // At the end of the input a line without a line feed is the last one.
    fn last(&self) -> NextLine
        ensures { result ≡ (if length self.now.line == 0 then NextLine.End else NextLine.Line) }
    {
        if self.len == 0 {
            NextLine::End
        } else {
            NextLine::Line
        }
    }

    fn fill<S: Source>(&mut self, source: &mut S) -> Got
        requires none { self.old.held ≡ [] }
        requires goes_on { self.old.ended ≡ false }
        ensures line { self.new.line ≡ self.old.line }
        ensures ended { EndsAt result self.new.ended }
        ensures content { Fills result self.new.held (S.left source.old) (S.left source.new) }
        ensures cause { result ≡ Got.Failed → Rose (S.faults source.old) (S.faults source.new) }
        ensures later { S.faults source.old ≤ S.faults source.new }
    {
        let got = source.read(&mut self.buf);
        match got {
            Got::Bytes(count) => {
                self.start = 0;
                self.end = count;
                self.feed = count_to_feed(&self.buf[..count]);
            }
            Got::End => self.ended = true,
            Got::Failed => {}
        }
        got
    }

    // Fills the buffer where nothing is read ahead, and says whether something is then.
    fn ready<S: Source>(&mut self, source: &mut S) -> Got
        ensures content { IsReady result self.old self.new (S.left source.old) (S.left source.new) }
        ensures ahead { 0 < length self.old.held → (self.new ≡ self.old) × (source.new ≡ source.old) }
        ensures over { self.old.ended ≡ true → (result ≡ Got.End) × (source.new ≡ source.old) }
        ensures cause { result ≡ Got.Failed → Rose (S.faults source.old) (S.faults source.new) }
        ensures later { S.faults source.old ≤ S.faults source.new }
    {
        if !self.is_spent() {
            return Got::Bytes(self.end - self.start);
        }
        if self.ended {
            return Got::End;
        }
        self.fill(source)
    }

    // Goes on with the line by what is read ahead, and answers where that decides it.
    fn take(&mut self, limit: usize) -> Option<NextLine>
        requires limit { limit ≤ 4096 }
        requires fits { length self.old.line ≤ limit }
        requires more { 0 < length self.old.held }
        ensures content { TakesPart result limit self.old self.new }
        ensures ended { self.new.ended ≡ self.old.ended }
    {
        let count = self.feed_place();
        let room = limit - self.line().len();
        if count > room {
            self.move_to_line(room);
            return Some(NextLine::TooLong);
        }
        self.move_to_line(count);
        if self.is_spent() {
            return None;
        }
        self.skip_feed();
        Some(NextLine::Line)
    }

    // How many bytes that are read ahead stand before the first line feed.
    fn feed_place(&self) -> usize
        ensures place { result ≡ length (line_of self.now.held) }
        ensures within { length self.now.held ≤ 4096 }
    {
        self.feed
    }

    fn skip_feed(&mut self)
        requires { 0 < length self.old.held }
        ensures { self.new ≡ record self.old { held = drop 1 self.old.held } }
    {
        self.start += 1;
        self.feed = count_to_feed(&self.buf[self.start..self.end]);
    }

    fn move_to_line(&mut self, count: usize)
        requires held { count ≤ length (line_of self.old.held) }
        requires fits { length self.old.line + count ≤ 4096 }
        ensures { self.new ≡ record self.old {
          held = drop count self.old.held;
          line = self.old.line ++ take count self.old.held;
        } }
    {
        copy_part(&mut self.line, self.len, &self.buf, self.start, count);
        self.start += count;
        self.len += count;
        self.feed -= count;
    }
}

fn copy_part(place: &mut [u8], at: usize, bytes: &[u8], start: usize, count: usize)
    requires room { at + count ≤ length place.old }
    requires part { start + count ≤ length bytes.now }
    ensures line { take (at + count) place.new ≡ take at place.old
        ++ take count (drop start bytes.now) }
    ensures len { length place.new ≡ length place.old }
{
    place[at..at + count].copy_from_slice(&bytes[start..start + count]);
}

fn first_feed(bytes: &[u8]) -> Option<usize>
    ensures { result ≡ position (λ b. b == 10) bytes.now }
{
    bytes.iter().position(|byte| *byte == b'\n')
}

#[tactic(auto, using(crate::proofs::LineLemmas::place_of_feed))]
fn count_to_feed(bytes: &[u8]) -> usize
    ensures { result ≡ length (line_of bytes.now) }
{
    first_feed(bytes).unwrap_or(bytes.len())
}
