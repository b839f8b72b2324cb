// Contents, one behind the other in one run of memory.
ghost use Rattle.std.specs.Prelude.{◌≡◌, ◌≤◌, ◌+◌, ◌++◌, [], length, OnOk, OnErr, IfOk, IsOk};
ghost use Rattle.peg_history.specs.Contents.{content_at, bytes_in, size_of, IsWithin, room_of};

use peg_name::{Content, OutOfMemory, Value};
use std::alloc::Global;

// Where a content lies: an absent one has no bytes.
#[derive(Clone, Copy)]
pub(crate) struct Span {
    is_present: bool,
    from: usize,
    len: u16,
}

// Contents, of which none is ever taken out.
#[derive(Drop)]
pub(crate) struct Contents {
    bytes: Vec<u8>,
}

impl Contents {
    pub(crate) fn make(alloc: Global) -> Contents
        ensures { result.bytes.items ≡ [] }
    {
        Contents {
            bytes: Vec::new(alloc),
        }
    }

    // Makes room for contents of so many bytes together.
    pub(crate) fn reserve(&mut self, bytes: usize) -> Result<(), OutOfMemory>
        ensures same { self.new.bytes.items ≡ self.old.bytes.items }
        ensures room { OnOk result (bytes ≤ room_of self.new) }
        ensures later { room_of self.old ≤ room_of self.new }
    {
        self.bytes.reserve(bytes)?;
        Ok(())
    }

    pub(crate) fn room(&self) -> usize
        ensures { result ≡ room_of self.now }
    {
        self.bytes.capacity() - self.bytes.len()
    }

    // Adds a content. It succeeds where there is room.
    pub(crate) fn put(&mut self, content: &Content<'_>) -> Result<Span, OutOfMemory>
        ensures more { OnOk result
            (self.new.bytes.items ≡ self.old.bytes.items ++ bytes_in content.now) }
        ensures lies { IfOk result (λ span. content_at self.new.bytes.items span ≡ content.now) }
        ensures within { IfOk result (IsWithin (length self.new.bytes.items)) }
        ensures err { OnErr result (self.new.bytes.items ≡ self.old.bytes.items) }
        ensures succeeds { size_of content.now ≤ room_of self.old → IsOk result }
        ensures room { room_of self.old ≤ room_of self.new + size_of content.now }
    {
        let from = self.bytes.len();
        let bytes = bytes_of(content);
        self.bytes.extend_from_slice(bytes)?;
        Ok(Span {
            is_present: matches!(content, Content::Present(_)),
            from,
            len: bytes.len() as u16,
        })
    }

    // The content that lies here.
    pub(crate) fn get(&self, span: &Span) -> Content<'_>
        requires { IsWithin (length self.now.bytes.items) span.now }
        ensures { result ≡ content_at self.now.bytes.items span.now }
    {
        if !span.is_present {
            return Content::Absent;
        }
        let end = span.from + usize::from(span.len);
        match Value::read(&self.bytes[span.from..end]) {
            Ok(value) => Content::Present(value),
            Err(_) => Content::Absent,
        }
    }
}

fn bytes_of<'a>(content: &Content<'a>) -> &'a [u8]
    ensures bytes { result.now ≡ bytes_in content.now }
    ensures few { length result.now ≤ 1024 }
{
    match content {
        Content::Absent => &[],
        Content::Present(value) => value.bytes(),
    }
}
