//! The words of a line, and what each says.
ghost use Rattle.std.specs.Prelude.{◌≡◌, ◌<◌, ◌≤◌, [], ◌∷◌, MatchOption, IfSome, position};
ghost use Rattle.std.specs.Prelude.{length, option_map};
ghost use Rattle.std.specs.Str.{bytes_eq};
ghost use Rattle.peg_text.specs.Reading as reading;
ghost use Rattle.peg_text.specs.Racks as racks;
ghost use Rattle.peg_text.specs.declared.spelling.Form.TheVariants as form;

use crate::spelling::{Form, are_plain, spelled};
use peg_name::{Content, Key, Value};
use std::marker::Model;

/// Whether a word is this one.
#[tactic(auto, using(crate::proofs::Alike::apart))]
pub(crate) fn is(word: &[u8], name: &[u8]) -> bool
    ensures { result ≡ bytes_eq word.now name.now }
{
    if word.len() != name.len() {
        return false;
    }
    for i in 0..name.len() {
        if word[i] != name[i] {
            return false;
        }
    }
    true
}

pub(crate) fn number_of(word: &[u8]) -> Option<u64>
    ensures { result ≡ reading.number_of word.now }
{
    if word.is_empty() || word.len() > 1 && word[0] == b'0' {
        return None;
    }
    let mut number: u64 = 0;
    for byte in word {
        if !byte.is_ascii_digit() {
            return None;
        }
        number = number
            .checked_mul(10)?
            .checked_add(u64::from(*byte - b'0'))?;
    }
    Some(number)
}

fn number_below(limit: u64, word: &[u8]) -> Option<u64>
    ensures { result ≡ reading.number_below limit word.now }
{
    let number = number_of(word)?;
    if number < limit { Some(number) } else { None }
}

#[tactic(auto, using(crate::proofs::Plain::plain_spelled))]
pub(crate) fn key_of(word: &[u8]) -> Option<Key>
    ensures { result ≡ reading.key_of word.now }
{
    if word.len() <= 32 && are_plain(word) {
        return Key::read(word).ok();
    }
    let mut room = [0; 32];
    let count = spelled(Form::Word, 32, word, &mut room)?;
    Key::read(&room[..count]).ok()
}

// The value that a word spells, lent from the word itself where its bytes spell themselves.
#[tactic(auto, using(crate::proofs::Plain::plain_spelled))]
fn value_in<'a>(most: usize, word: &'a [u8], room: &'a mut [u8; 1024]) -> Option<Value<'a>>
    requires { most ≤ 1024 }
    ensures { result ≡ reading.spelled form.Word most word.entry.now }
{
    if word.len() <= most && are_plain(word) {
        return Value::read(word).ok();
    }
    let count = spelled(Form::Word, most, word, room)?;
    Value::read(&room[..count]).ok()
}

fn value_of<'a>(most: usize, word: &'a [u8], room: &'a mut [u8; 1024]) -> Option<Value<'a>>
    requires { most ≤ 1024 }
    ensures { result ≡ reading.value_of most word.entry.now }
{
    let [b'=', rest @ ..] = word else {
        return None;
    };
    value_in(most, rest, room)
}

fn content_of<'a>(word: &'a [u8], room: &'a mut [u8; 1024]) -> Option<Content<'a>>
    ensures { result ≡ reading.content_of word.entry.now }
{
    if is(word, b"-") {
        return Some(Content::Absent);
    }
    Some(Content::Present(value_of(1024, word, room)?))
}

// The bytes that pairs of digits spell, at most so many of them.
fn hex_of<'a>(most: usize, word: &'a [u8], room: &'a mut [u8]) -> Option<&'a [u8]>
    requires { most ≤ length room.old }
    ensures bytes { option_map (λ bytes. bytes.now) result
        ≡ reading.hex_of most word.entry.now }
    ensures few { IfSome result (λ bytes. length bytes.now ≤ most) }
{
    let [b'x', rest @ ..] = word else {
        return None;
    };
    let count = spelled(Form::Hex, most, rest, room)?;
    Some(&room[..count])
}

fn first_space(text: &[u8]) -> Option<usize>
    ensures { result ≡ position reading.is_space text.now }
{
    text.iter().position(|byte| *byte == b' ')
}

/// The words of a line that are left. A contract sees the list of these.
#[derive(Drop)]
pub(crate) struct Words<'a> {
    rest: &'a [u8],
    done: bool,
}

impl<'a> Model for Words<'a> {
    ghost use Rattle.std.specs.Prelude.{List, ℕ, [], if◌then◌else◌};
    ghost use Rattle.peg_text.specs.Reading.{words_of};

    ghost Value = { List (List ℕ) };

    ghost view = { λ w. if w.done then [] else words_of w.rest.now };
}

impl<'a> Words<'a> {
    /// The words of this line.
    pub(crate) fn of(line: &'a [u8]) -> Words<'a>
        ensures { result ≡ reading.words_of line.entry.now }
    {
        Words {
            rest: line,
            done: false,
        }
    }

    pub(crate) fn next(&mut self) -> Option<&'a [u8]>
        ensures { MatchOption result ((self.old ≡ []) × (self.new ≡ []))
            (λ w. self.old ≡ w.now ∷ self.new) }
    {
        if self.done {
            return None;
        }
        match first_space(self.rest) {
            Some(end) => {
                let word = &self.rest[..end];
                self.rest = &self.rest[end + 1..];
                Some(word)
            }
            None => {
                self.done = true;
                Some(self.rest)
            }
        }
    }

    pub(crate) fn number(&mut self) -> Option<u64>
        ensures { option_map (λ n. (n, self.new)) result
            ≡ reading.next_by reading.number_of self.old }
    {
        number_of(self.next()?)
    }

    pub(crate) fn number_below(&mut self, limit: u64) -> Option<u64>
        ensures read { option_map (λ n. (n, self.new)) result
            ≡ reading.next_by (reading.number_below limit) self.old }
        ensures below { IfSome result (λ n. n < limit) }
    {
        number_below(limit, self.next()?)
    }

    pub(crate) fn key(&mut self) -> Option<Key>
        ensures { option_map (λ key. (key, self.new)) result
            ≡ reading.next_by reading.key_of self.old }
    {
        key_of(self.next()?)
    }

    pub(crate) fn value(&mut self, most: usize, room: &'a mut [u8; 1024]) -> Option<Value<'a>>
        requires { most ≤ 1024 }
        ensures { option_map (λ value. (value, self.new)) result
            ≡ reading.next_by (reading.value_of most) self.old }
    {
        value_of(most, self.next()?, room)
    }

    pub(crate) fn content(&mut self, room: &'a mut [u8; 1024]) -> Option<Content<'a>>
        ensures { option_map (λ content. (content, self.new)) result
            ≡ reading.next_by reading.content_of self.old }
    {
        content_of(self.next()?, room)
    }

    /// Reads bytes that are spelled by pairs of digits, at most so many.
    pub(crate) fn hex(&mut self, most: usize, room: &'a mut [u8]) -> Option<&'a [u8]>
        requires { most ≤ length room.old }
        ensures read { option_map (λ bytes. (bytes.now, self.new)) result
            ≡ reading.next_by (reading.hex_of most) self.old }
        ensures few { IfSome result (λ bytes. length bytes.now ≤ most) }
    {
        hex_of(most, self.next()?, room)
    }

    /// Reads just this word.
    pub(crate) fn literal(&mut self, word: &[u8]) -> Option<()>
        ensures { option_map (λ read. (read, self.new)) result
            ≡ reading.next_by (racks.literal word.now) self.old }
    {
        if is(self.next()?, word) {
            Some(())
        } else {
            None
        }
    }

    /// Reads the number behind this name.
    pub(crate) fn field(&mut self, name: &[u8]) -> Option<u64>
        ensures { option_map (λ n. (n, self.new)) result
            ≡ reading.next_by (racks.field_of name.now) self.old }
    {
        number_of(self.next()?.strip_prefix(name)?)
    }

    /// Takes the next word if it is this one.
    pub(crate) fn take(&mut self, word: &[u8]) -> bool
        ensures { (result, self.new) ≡ racks.taken word.now self.old }
    {
        let mut ahead = Words {
            rest: self.rest,
            done: self.done,
        };
        let is_next = ahead.next() == Some(word);
        if is_next {
            *self = ahead;
        }
        is_next
    }
}
