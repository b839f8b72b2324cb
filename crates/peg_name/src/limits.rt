//! What a format allows.

ghost use Rattle.std.specs.Prelude.{◌≡◌, ◌≤◌};
ghost use Rattle.peg_name.specs.Name.{servers_most, clients_most, value_most, packet_most};
ghost use Rattle.peg_name.specs.Name.{parts_most, line_most};
ghost use Rattle.peg_name.specs.Limits.{format_of, number_of};

use crate::Format;

impl Format {
    /// The format with this number, which is 1 or 2.
    pub fn of_number(number: u64) -> Option<Format>
        ensures { result ≡ format_of number }
    {
        match number {
            1 => Some(Format::One),
            2 => Some(Format::Two),
            _ => None,
        }
    }

    /// Its number, 1 or 2.
    pub fn number(self) -> u8
        ensures { result ≡ number_of self }
    {
        match self {
            Format::One => 1,
            Format::Two => 2,
        }
    }

    /// The most servers that a rack has.
    pub fn most_servers(self) -> u64
        ensures most { result ≡ servers_most self }
        ensures few { result ≤ 64 }
    {
        match self {
            Format::One => 16,
            Format::Two => 64,
        }
    }

    /// The most clients that a rack has.
    pub fn most_clients(self) -> u64
        ensures most { result ≡ clients_most self }
        ensures few { result ≤ 1024 }
    {
        match self {
            Format::One => 256,
            Format::Two => 1024,
        }
    }

    /// The most bytes that a value has.
    pub fn most_of_value(self) -> usize
        ensures most { result ≡ value_most self }
        ensures few { result ≤ 1024 }
    {
        match self {
            Format::One => 512,
            Format::Two => 1024,
        }
    }

    /// The most bytes that a packet has.
    pub fn most_of_packet(self) -> usize
        ensures most { result ≡ packet_most self }
        ensures few { result ≤ 1152 }
    {
        match self {
            Format::One => 640,
            Format::Two => 1152,
        }
    }

    /// The most parts that a switch's state is handed over in.
    pub fn most_parts(self) -> u8
        ensures most { result ≡ parts_most self }
        ensures few { result ≤ 64 }
    {
        match self {
            Format::One => 32,
            Format::Two => 64,
        }
    }

    /// The most bytes that a line has, without its line feed.
    pub fn most_of_line(self) -> usize
        ensures most { result ≡ line_most self }
        ensures few { result ≤ 4096 }
    {
        match self {
            Format::One => 2048,
            Format::Two => 4096,
        }
    }
}
