//! A line that is printed, piece by piece.
ghost use Rattle.std.specs.Prelude.{◌≡◌, ◌+◌, ◌*◌, ◌≤◌, ◌++◌, [], length, codes, decimal, flat_map};
ghost use Rattle.peg_model.specs.Schedule.{node_words};
ghost use Rattle.peg_model.specs.Text.{key_word, content_word, plain_or_escaped, hex_word};
ghost use Rattle.peg_text.specs.Reading.{escaped, lower_pair};

use crate::spelling::{are_plain, escaped, is_plain, pair};
use arrayvec::ArrayVec;
use itoa::Buffer;
use peg_name::{ClientId, Content, Key, Node, Seq, ServerId, SwitchId, Version};
use std::marker::Model;

/// A line of text: up to 4,096 bytes, held in place. A contract sees the list of the bytes.
#[derive(Drop)]
pub struct Text {
    bytes: ArrayVec<u8, 4096>,
}

impl Model for Text {
    ghost use Rattle.std.specs.Prelude.{List, ℕ};

    ghost Value = { List ℕ };

    ghost view = { λ t. t.bytes.items };
}

impl Text {
    /// A text with no byte.
    pub fn make() -> Text
        ensures { result ≡ [] }
    {
        Text {
            bytes: ArrayVec::new(),
        }
    }

    /// What was printed, without a line feed.
    pub fn bytes(&self) -> &[u8]
        ensures bytes { result.now ≡ self.now }
        ensures fits { length result.now ≤ 4096 }
    {
        self.bytes.as_slice()
    }

    pub(crate) fn clear(&mut self)
        ensures { self.new ≡ [] }
    {
        self.bytes.clear();
    }

    pub(crate) fn push_bytes(&mut self, bytes: &[u8])
        requires { length self.old + length bytes.now ≤ 4096 }
        ensures text { self.new ≡ self.old ++ bytes.now }
        ensures room { length self.new ≡ length self.old + length bytes.now }
    {
        self.bytes.try_extend_from_slice(bytes).unwrap();
    }

    pub(crate) fn push_number(&mut self, number: u64)
        requires { length self.old + 20 ≤ 4096 }
        ensures text { self.new ≡ self.old ++ decimal number }
        ensures room { length self.new ≤ length self.old + 20 }
    {
        let mut buffer = Buffer::new();
        self.push_bytes(buffer.format(number).as_bytes());
    }

    fn push_escaped(&mut self, byte: u8)
        requires { length self.old + 3 ≤ 4096 }
        ensures text { self.new ≡ self.old ++ escaped byte }
        ensures room { length self.new ≡ length self.old + 3 }
    {
        self.push_bytes(escaped(byte).as_slice());
    }

    fn push_byte_spelled(&mut self, byte: u8)
        requires { length self.old + 3 ≤ 4096 }
        ensures text { self.new ≡ self.old ++ plain_or_escaped byte }
        ensures room { length self.new ≤ length self.old + 3 }
    {
        if is_plain(byte) {
            self.bytes.push(byte);
        } else {
            self.push_escaped(byte);
        }
    }

    fn push_each_spelled(&mut self, bytes: &[u8])
        requires { length self.old + 3 * length bytes.now ≤ 4096 }
        ensures text { self.new ≡ self.old ++ key_word bytes.now }
        ensures room { length self.new ≤ length self.old + 3 * length bytes.now }
    {
        for byte in bytes {
            self.push_byte_spelled(*byte);
        }
    }

    #[tactic(auto, using(crate::proofs::Plain::plain_word))]
    fn push_all_spelled(&mut self, bytes: &[u8])
        requires { length self.old + 3 * length bytes.now ≤ 4096 }
        ensures text { self.new ≡ self.old ++ key_word bytes.now }
        ensures room { length self.new ≤ length self.old + 3 * length bytes.now }
    {
        if are_plain(bytes) {
            self.push_bytes(bytes);
        } else {
            self.push_each_spelled(bytes);
        }
    }

    pub(crate) fn push_key(&mut self, key: &Key)
        requires { length self.old + 96 ≤ 4096 }
        ensures text { self.new ≡ self.old ++ key_word key.now }
        ensures room { length self.new ≤ length self.old + 96 }
    {
        self.push_all_spelled(key.bytes());
    }

    pub(crate) fn push_content(&mut self, content: &Content<'_>)
        requires { length self.old + 3073 ≤ 4096 }
        ensures text { self.new ≡ self.old ++ content_word content.now }
        ensures room { length self.new ≤ length self.old + 3073 }
    {
        match content {
            Content::Absent => self.push_bytes(b"-"),
            Content::Present(value) => {
                self.push_bytes(b"=");
                self.push_all_spelled(value.bytes());
            }
        }
    }

    fn push_pair(&mut self, byte: u8)
        requires { length self.old + 2 ≤ 4096 }
        ensures text { self.new ≡ self.old ++ lower_pair byte }
        ensures room { length self.new ≡ length self.old + 2 }
    {
        self.push_bytes(pair(byte).as_slice());
    }

    fn push_pairs(&mut self, bytes: &[u8])
        requires { length self.old + 2 * length bytes.now ≤ 4096 }
        ensures text { self.new ≡ self.old ++ flat_map lower_pair bytes.now }
        ensures room { length self.new ≡ length self.old + 2 * length bytes.now }
    {
        for byte in bytes {
            self.push_pair(*byte);
        }
    }

    pub(crate) fn push_hex(&mut self, bytes: &[u8])
        requires { length self.old + 2 * length bytes.now + 1 ≤ 4096 }
        ensures text { self.new ≡ self.old ++ hex_word bytes.now }
        ensures room { length self.new ≡ length self.old + 2 * length bytes.now + 1 }
    {
        self.push_bytes(b"x");
        self.push_pairs(bytes);
    }

    pub(crate) fn push_word_number(&mut self, word: &[u8], number: u64)
        requires { length self.old + length word.now + 20 ≤ 4096 }
        ensures text { self.new ≡ self.old ++ (word.now ++ decimal number) }
        ensures room { length self.new ≤ length self.old + length word.now + 20 }
    {
        self.push_bytes(word);
        self.push_number(number);
    }

    pub(crate) fn push_server(&mut self, word: &[u8], server: &ServerId)
        requires { length self.old + length word.now + 20 ≤ 4096 }
        ensures text { self.new ≡ self.old ++ (word.now ++ decimal server.now) }
        ensures room { length self.new ≤ length self.old + length word.now + 20 }
    {
        self.push_word_number(word, u64::from(server.0));
    }

    pub(crate) fn push_client(&mut self, word: &[u8], client: &ClientId)
        requires { length self.old + length word.now + 20 ≤ 4096 }
        ensures text { self.new ≡ self.old ++ (word.now ++ decimal client.now) }
        ensures room { length self.new ≤ length self.old + length word.now + 20 }
    {
        self.push_word_number(word, u64::from(client.0));
    }

    pub(crate) fn push_switch(&mut self, word: &[u8], switch: &SwitchId)
        requires { length self.old + length word.now + 20 ≤ 4096 }
        ensures text { self.new ≡ self.old ++ (word.now ++ decimal switch.now) }
        ensures room { length self.new ≤ length self.old + length word.now + 20 }
    {
        self.push_word_number(word, u64::from(switch.0));
    }

    pub(crate) fn push_node(&mut self, word: &[u8], node: &Node)
        requires { length self.old + length word.now + 31 ≤ 4096 }
        ensures text { self.new ≡ self.old ++ (word.now ++ node_words node.now) }
        ensures room { length self.new ≤ length self.old + length word.now + 31 }
    {
        self.push_bytes(word);
        match node {
            Node::Client(id) => self.push_client(b"client ", id),
            Node::Server(id) => self.push_server(b"server ", id),
            Node::Switch(id) => self.push_switch(b"switch ", id),
            Node::Controller => self.push_bytes(b"controller"),
        }
    }

    pub(crate) fn push_seq(&mut self, word: &[u8], seq: &Seq)
        requires { length self.old + length word.now + 20 ≤ 4096 }
        ensures text { self.new ≡ self.old ++ (word.now ++ decimal seq.now) }
        ensures room { length self.new ≤ length self.old + length word.now + 20 }
    {
        self.push_word_number(word, seq.0);
    }

    pub(crate) fn push_version(&mut self, word: &[u8], version: &Version)
        requires { length self.old + length word.now + 20 ≤ 4096 }
        ensures text { self.new ≡ self.old ++ (word.now ++ decimal version.now) }
        ensures room { length self.new ≤ length self.old + length word.now + 20 }
    {
        self.push_word_number(word, version.0);
    }

    pub(crate) fn push_word_key(&mut self, word: &[u8], key: &Key)
        requires { length self.old + length word.now + 96 ≤ 4096 }
        ensures text { self.new ≡ self.old ++ (word.now ++ key_word key.now) }
        ensures room { length self.new ≤ length self.old + length word.now + 96 }
    {
        self.push_bytes(word);
        self.push_key(key);
    }

    pub(crate) fn push_numbers(&mut self, word: &[u8], number: u64, other: &[u8], second: u64)
        requires { length self.old + length word.now + length other.now + 40 ≤ 4096 }
        ensures text { self.new
            ≡ self.old ++ (word.now ++ decimal number ++ other.now ++ decimal second) }
        ensures room { length self.new ≤ length self.old + length word.now + length other.now + 40 }
    {
        self.push_word_number(word, number);
        self.push_word_number(other, second);
    }

    pub(crate) fn push_key_version(&mut self, word: &[u8], key: &Key, version: &Version)
        requires { length self.old + length word.now + 125 ≤ 4096 }
        ensures text { self.new ≡ self.old ++ (word.now ++ key_word key.now ++ codes " version "
            ++ decimal version.now) }
        ensures room { length self.new ≤ length self.old + length word.now + 125 }
    {
        self.push_word_key(word, key);
        self.push_version(b" version ", version);
    }

    pub(crate) fn push_client_seq(&mut self, word: &[u8], client: &ClientId, seq: &Seq)
        requires { length self.old + length word.now + 45 ≤ 4096 }
        ensures text { self.new
            ≡ self.old ++ (word.now ++ decimal client.now ++ codes " seq " ++ decimal seq.now) }
        ensures room { length self.new ≤ length self.old + length word.now + 45 }
    {
        self.push_client(word, client);
        self.push_seq(b" seq ", seq);
    }
}
