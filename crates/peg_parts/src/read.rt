//! What stands in a state's bytes, read without a look at their length: a byte behind them counts
//! as 0. Whether they are the state is seen by spelling what was read.

ghost use Rattle.std.specs.Prelude.{◌≡◌, ◌≤◌, ◌<◌, ◌+◌, ◌*◌, ◌^◌, ◌&&◌, IfSome, IfNone, IsTrue, true};
ghost use Rattle.std.specs.Prelude.{false, length, drop, nat_lt, vec_capacity};
ghost use Rattle.std.specs.List.{list_all};
ghost use Rattle.std.specs.Map.{keys_of};
ghost use Rattle.peg_name.specs.Holders.{servers_of};
ghost use Rattle.peg_model.specs.Words.{is_in};
ghost use Rattle.peg_model.specs.Packet.{are_distinct};
ghost use Rattle.peg_model.specs.Reading.{one_at, two_at, eight_at, key_at, past_key};
ghost use Rattle.peg_model.specs.Handover.{holders_at, holder_width, mark_of, entry_at, entries_at};
ghost use Rattle.peg_model.specs.Handover.{is_entry, stamps_at, state_at, is_state};
ghost use Rattle.peg_directory.specs.Table.{IsDirectory};
ghost use Rattle.peg_parts.specs.Sealed.{state_with};
ghost use Rattle.peg_parts.specs.Reading.{is_directory};

use peg_directory::{Directory, Listing};
use peg_name::{ClientId, Config, Format, Holders, Key, Seq, Version};
use peg_stamp::Stamper;

fn byte_at(bytes: &[u8], at: usize) -> u8
    ensures { result ≡ one_at bytes.now at }
{
    if at < bytes.len() { bytes[at] } else { 0 }
}

fn two_at(bytes: &[u8], at: usize) -> u16
    requires { at < 2 ^ 32 }
    ensures { result ≡ two_at bytes.now at }
{
    u16::from_be_bytes([byte_at(bytes, at), byte_at(bytes, at + 1)])
}

fn eight_at(bytes: &[u8], at: usize) -> u64
    requires { at < 2 ^ 32 }
    ensures { result ≡ eight_at bytes.now at }
{
    if let Some(eight) = from(bytes, at).first_chunk() {
        return u64::from_be_bytes(*eight);
    }
    u64::from_be_bytes([
        byte_at(bytes, at),
        byte_at(bytes, at + 1),
        byte_at(bytes, at + 2),
        byte_at(bytes, at + 3),
        byte_at(bytes, at + 4),
        byte_at(bytes, at + 5),
        byte_at(bytes, at + 6),
        byte_at(bytes, at + 7),
    ])
}

fn from(bytes: &[u8], at: usize) -> &[u8]
    ensures { result.now ≡ drop at bytes.now }
{
    &bytes[at.min(bytes.len())..]
}

fn key_at(bytes: &[u8], at: usize) -> &[u8]
    requires { at < 2 ^ 32 }
    ensures { result.now ≡ key_at bytes.now at }
{
    let rest = from(bytes, at + 1);
    &rest[..rest.len().min(usize::from(byte_at(bytes, at)))]
}

/// The place behind the key at a place.
fn past_key(bytes: &[u8], at: usize) -> usize
    requires { at < 2 ^ 32 }
    ensures past { result ≡ past_key bytes.now at }
    ensures near { result ≤ at + 256 }
{
    at + 1 + usize::from(byte_at(bytes, at))
}

fn holders_at(bytes: &[u8], format: Format, at: usize) -> Holders
    requires { at < 2 ^ 32 }
    ensures { result ≡ servers_of (holders_at bytes.now format at) }
{
    match format {
        Format::One => Holders::of_bits(u64::from(two_at(bytes, at))),
        Format::Two => Holders::of_bits(eight_at(bytes, at)),
    }
}

/// The bytes that the holders of an entry take.
fn width(format: Format) -> usize
    ensures width { result ≡ holder_width format }
    ensures few { result ≤ 8 }
{
    match format {
        Format::One => 2,
        Format::Two => 8,
    }
}

fn mark_of(number: u64) -> Option<Version>
    ensures { result ≡ mark_of number }
{
    if number == 0 {
        None
    } else {
        Some(Version(number))
    }
}

/// Whether there is a holder, and each is a server of the rack.
fn are_in_rack(holders: &Holders, config: &Config) -> bool
    ensures { result ≡ (nat_lt 0 (length holders.now)
        && list_all (λ server. nat_lt server config.now.servers) holders.now) }
{
    let count = holders.count();
    if count == 0 {
        return false;
    }
    for place in 0..count {
        if !config.has_server(holders.nth(place)) {
            return false;
        }
    }
    true
}

/// The entry at a place, where each of its numbers is within the rack.
fn entry_at(bytes: &[u8], config: &Config, at: usize) -> Option<(Key, Listing)>
    requires { at < 2 ^ 31 }
    ensures entry { IfSome result (λ item. item ≡ entry_at bytes.now config.now.format at) }
    ensures within { IfSome result (λ item. is_entry config.now item ≡ true) }
    ensures none { IfNone result
        (is_entry config.now (entry_at bytes.now config.now.format at) ≡ false) }
{
    let Ok(key) = Key::read(key_at(bytes, at)) else {
        return None;
    };
    let past = past_key(bytes, at);
    let holders = holders_at(bytes, config.format(), past + 24);
    if !are_in_rack(&holders, config) {
        return None;
    }
    let entry = Listing {
        listing: eight_at(bytes, past),
        base: Version(eight_at(bytes, past + 8)),
        completed: Version(eight_at(bytes, past + 16)),
        holders,
        mark: mark_of(eight_at(bytes, past + 24 + width(config.format()))),
    };
    Some((key, entry))
}

fn is_in(key: &Key, entries: &[(Key, Listing)]) -> bool
    ensures { result ≡ is_in key.now (keys_of entries.now) }
{
    for (other, _) in entries {
        if key == other {
            return true;
        }
    }
    false
}

fn are_distinct(entries: &[(Key, Listing)]) -> bool
    ensures { result ≡ are_distinct (keys_of entries.now) }
{
    for i in 0..entries.len() {
        if is_in(&entries[i].0, &entries[i + 1..]) {
            return false;
        }
    }
    true
}

/// Reads the entries whose count stands at a place, in place of those that there were. Answers
/// whether a directory of the rack may have them.
fn read_entries(bytes: &[u8], config: &Config, at: usize, entries: &mut Vec<(Key, Listing)>) -> bool
    requires near { at < 2 ^ 30 }
    requires room { config.now.listed ≤ vec_capacity entries.old }
    ensures answer { result ≡ is_directory config.now
        (entries_at bytes.now config.now.format (one_at bytes.now at) (at + 1)) }
    ensures entries { IsTrue result → entries.new.items
        ≡ entries_at bytes.now config.now.format (one_at bytes.now at) (at + 1) }
    ensures room { vec_capacity entries.new ≡ vec_capacity entries.old }
{
    entries.clear();
    let count = byte_at(bytes, at);
    if u64::from(count) > config.listed() {
        return false;
    }
    let width = width(config.format());
    let mut place = at + 1;
    for _ in 0..count {
        let Some(item) = entry_at(bytes, config, place) else {
            return false;
        };
        entries.push_reserved(item);
        place = past_key(bytes, place) + 32 + width;
    }
    are_distinct(entries)
}

fn read_rows(bytes: &[u8], stamper: &mut Stamper, clients: u16)
    requires { length stamper.old.rows ≡ clients }
    ensures { stamper.new ≡ record stamper.old { rows = stamps_at bytes.now clients 18 } }
{
    for client in 0..clients {
        let at = 18 + 16 * usize::from(client);
        let (seq, version) = (Seq(eight_at(bytes, at)), Version(eight_at(bytes, at + 8)));
        stamper.set_row(ClientId(client), seq, version);
    }
}

/// Reads a state, with its entries by way of a list that has room for them, and answers the number
/// of the last command. There is none where it is no state of the rack.
pub fn read_state(
    bytes: &[u8],
    config: &Config,
    stamper: &mut Stamper,
    entries: &mut Vec<(Key, Listing)>,
    directory: &mut Directory,
) -> Option<u64>
    requires clients { length stamper.old.rows ≡ config.now.clients }
    requires rack { directory.old.rack ≡ config.now }
    requires room { config.now.listed ≤ vec_capacity entries.old }
    ensures state { IfSome result (λ last. state_with stamper.new last directory.new.entries
        ≡ state_at bytes.now config.now.format) }
    ensures least { IfSome result (λ last. 1 ≤ last) }
    ensures none { IfNone result
        (is_state config.now (state_at bytes.now config.now.format) ≡ false) }
    ensures clients { length stamper.new.rows ≡ config.now.clients }
    ensures rack { directory.new.rack ≡ config.now }
    ensures room { vec_capacity entries.new ≡ vec_capacity entries.old }
{
    let next = eight_at(bytes, 0);
    if next == 0 {
        return None;
    }
    let last = eight_at(bytes, 8);
    if last == 0 {
        return None;
    }
    let clients = two_at(bytes, 16);
    if u64::from(clients) != config.clients() {
        return None;
    }
    if !read_entries(bytes, config, 18 + 16 * usize::from(clients), entries) {
        return None;
    }
    stamper.set_next(Version(next));
    read_rows(bytes, stamper, clients);
    directory.load(entries);
    Some(last)
}
