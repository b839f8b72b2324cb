//! How a state is spelled, behind what a list of bytes holds and in the room that it has.

ghost use Rattle.std.specs.Prelude.{◌≡◌, ◌≤◌, ◌+◌, ◌*◌, ◌++◌, length, true, vec_capacity, unwrap_or};
ghost use Rattle.std.specs.List.{list_all, flat_map};
ghost use Rattle.peg_name.specs.Name.{InLimits};
ghost use Rattle.peg_name.specs.Holders.{bits_of};
ghost use Rattle.peg_model.specs.Packet.{two, eight, key_bytes, is_number};
ghost use Rattle.peg_model.specs.Handover.{stamp_bytes, holder_bytes, entry_bytes, state_bytes};
ghost use Rattle.peg_model.specs.Handover.{is_stamp_row};
ghost use Rattle.peg_grammar.specs.State.{is_rising, SpellsState};
ghost use Rattle.peg_parts.specs.Sealed.{state_with, room_of};

use peg_directory::{Directory, Listing};
use peg_name::{ClientId, Format, Holders, Key, Seq, Version};
use peg_stamp::Stamper;

/// Puts bytes behind those that there are.
pub fn put(out: &mut Vec<u8>, bytes: &[u8])
    requires { length out.old.items + length bytes.now ≤ vec_capacity out.old }
    ensures items { out.new.items ≡ out.old.items ++ bytes.now }
    ensures room { vec_capacity out.old ≤ vec_capacity out.new }
{
    out.extend_from_slice(bytes).unwrap();
}

fn put_eight(out: &mut Vec<u8>, number: u64)
    requires { length out.old.items + 8 ≤ vec_capacity out.old }
    ensures items { out.new.items ≡ out.old.items ++ eight number }
    ensures room { vec_capacity out.old ≤ vec_capacity out.new }
{
    put(out, &number.to_be_bytes());
}

fn put_seq(out: &mut Vec<u8>, seq: Seq)
    requires { length out.old.items + 8 ≤ vec_capacity out.old }
    ensures items { out.new.items ≡ out.old.items ++ eight seq }
    ensures room { vec_capacity out.old ≤ vec_capacity out.new }
    ensures number { is_number seq ≡ true }
{
    prove!(seq.0 <= u64::MAX);
    put_eight(out, seq.0);
}

fn put_version(out: &mut Vec<u8>, version: Version)
    requires { length out.old.items + 8 ≤ vec_capacity out.old }
    ensures items { out.new.items ≡ out.old.items ++ eight version }
    ensures room { vec_capacity out.old ≤ vec_capacity out.new }
    ensures number { is_number version ≡ true }
{
    prove!(version.0 <= u64::MAX);
    put_eight(out, version.0);
}

fn put_mark(out: &mut Vec<u8>, mark: Option<Version>)
    requires { length out.old.items + 8 ≤ vec_capacity out.old }
    ensures items { out.new.items ≡ out.old.items ++ eight (unwrap_or mark 0) }
    ensures room { vec_capacity out.old ≤ vec_capacity out.new }
{
    match mark {
        Some(version) => put_version(out, version),
        None => put_eight(out, 0),
    }
}

fn put_key(out: &mut Vec<u8>, key: &Key)
    requires { length out.old.items + 33 ≤ vec_capacity out.old }
    ensures items { out.new.items ≡ out.old.items ++ key_bytes key.now }
    ensures room { vec_capacity out.old ≤ vec_capacity out.new }
    ensures short { length key.now ≤ 32 }
{
    let bytes = key.bytes();
    put(out, &[bytes.len() as u8]);
    put(out, bytes);
}

/// The row of a client.
fn put_row(out: &mut Vec<u8>, seq: Seq, version: Version)
    requires { length out.old.items + 16 ≤ vec_capacity out.old }
    ensures items { out.new.items ≡ out.old.items ++ stamp_bytes (seq, version) }
    ensures room { vec_capacity out.old ≤ vec_capacity out.new }
    ensures short { length out.new.items ≡ length out.old.items + 16 }
    ensures numbers { is_stamp_row (seq, version) ≡ true }
{
    put_seq(out, seq);
    put_version(out, version);
}

/// The rows of the clients, in their order.
fn put_rows(out: &mut Vec<u8>, stamper: &Stamper, clients: u16)
    requires clients { length stamper.now.rows ≡ clients }
    requires room { length out.old.items + 16 * clients ≤ vec_capacity out.old }
    ensures items { out.new.items ≡ out.old.items ++ flat_map stamp_bytes stamper.now.rows }
    ensures room { vec_capacity out.old ≤ vec_capacity out.new }
    ensures long { length out.new.items ≡ length out.old.items + 16 * clients }
    ensures numbers { list_all is_stamp_row stamper.now.rows ≡ true }
{
    for client in 0..clients {
        let (seq, version) = stamper.row(ClientId(client));
        put_row(out, seq, version);
    }
}

fn copied(holders: &Holders) -> Holders
    ensures { result ≡ holders.now }
{
    *holders
}

/// The bits of the holders, who rise as in each set that a call hands out.
fn bits(holders: &Holders) -> u64
    ensures bits { result ≡ bits_of holders.now }
    ensures rising { is_rising holders.now ≡ true }
{
    copied(holders).bits()
}

fn put_holders(out: &mut Vec<u8>, format: Format, holders: &Holders)
    requires { length out.old.items + 8 ≤ vec_capacity out.old }
    ensures items { out.new.items ≡ out.old.items ++ holder_bytes format (bits_of holders.now) }
    ensures room { vec_capacity out.old ≤ vec_capacity out.new }
    ensures rising { is_rising holders.now ≡ true }
{
    let bytes = bits(holders).to_be_bytes();
    match format {
        Format::One => put(out, &bytes[6..]),
        Format::Two => put(out, &bytes),
    }
}

/// A listed key with its entry.
fn put_entry(out: &mut Vec<u8>, format: Format, key: &Key, entry: &Listing)
    requires { length out.old.items + 73 ≤ vec_capacity out.old }
    ensures items { out.new.items ≡ out.old.items ++ entry_bytes format (key.now, entry.now) }
    ensures room { vec_capacity out.old ≤ vec_capacity out.new }
    ensures short { length out.new.items ≤ length out.old.items + 73 }
    ensures rising { is_rising entry.now.holders ≡ true }
{
    put_key(out, key);
    put_eight(out, entry.listing);
    put_version(out, entry.base);
    put_version(out, entry.completed);
    put_holders(out, format, &entry.holders);
    put_mark(out, entry.mark);
}

/// The entries, in their order.
fn put_entries(out: &mut Vec<u8>, format: Format, directory: &Directory)
    requires { length out.old.items + 73 * length directory.now.entries ≤ vec_capacity out.old }
    ensures items { out.new.items
        ≡ out.old.items ++ flat_map (entry_bytes format) directory.now.entries }
    ensures room { vec_capacity out.old ≤ vec_capacity out.new }
    ensures rising { list_all (λ item. is_rising item.1.holders) directory.now.entries ≡ true }
{
    for place in 0..directory.len() {
        let (key, entry) = directory.entry(place);
        put_entry(out, format, &key, &entry);
    }
}

/// The numbers before the rows: the next version, that of the last command, and how many rows
/// there are.
fn put_numbers(out: &mut Vec<u8>, next: Version, last: u64, clients: u16)
    requires { length out.old.items + 18 ≤ vec_capacity out.old }
    ensures items { out.new.items ≡ out.old.items ++ (eight next ++ eight last ++ two clients) }
    ensures room { vec_capacity out.old ≤ vec_capacity out.new }
    ensures next { is_number next ≡ true }
    ensures last { is_number last ≡ true }
{
    put_version(out, next);
    put_eight(out, last);
    put(out, &clients.to_be_bytes());
}

/// Spells a state in place of what there was: the stamps, the number of the last command and the
/// directory.
pub fn spell(out: &mut Vec<u8>, stamper: &Stamper, directory: &Directory, last: u64)
    requires clients { length stamper.now.rows ≡ directory.now.rack.clients }
    requires last { 1 ≤ last }
    requires room { room_of directory.now.rack ≤ vec_capacity out.old }
    ensures room { vec_capacity out.old ≤ vec_capacity out.new }
    ensures limits { InLimits directory.now.rack }
    ensures spelled { SpellsState directory.now.rack out.new.items
        (state_with stamper.now last directory.now.entries) }
{
    let config = directory.config();
    let clients = config.clients() as u16;
    out.clear();
    put_numbers(out, stamper.next(), last, clients);
    put_rows(out, stamper, clients);
    put(out, &[directory.len() as u8]);
    put_entries(out, config.format(), directory);
}
