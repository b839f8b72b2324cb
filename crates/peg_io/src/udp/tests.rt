ghost use Rattle.std.specs.Prelude.{◌≡◌, ◌<◌};

use super::*;
use std::test::Fail;

// Packets of a first round trip: a write, the same as a server takes it, and a read.
const WRITE: &[u8; 30] = b"PG\x01\x02\0\0\0\0\0\0\0\0\0\x01\0\0\0\0\0\0\0\0\0\0\x01k\x01\0\x01x";

const TO_SERVER: &[u8; 30] =
    b"PG\x01\x04\0\0\0\0\0\0\0\0\0\x01\0\0\0\0\0\0\0\x01\0\0\x01k\x01\0\x01x";

const READ: &[u8; 26] = b"PG\x01\x01\0\0\0\0\0\0\0\0\0\x02\0\0\0\0\0\0\0\0\0\0\x01k";

// Two ports that are free.
fn free_ports<N: Net>(net: &N) -> io::Result<(u16, u16)> {
    let first = UdpSocket::bind(net, local(0))?;
    let second = UdpSocket::bind(net, local(0))?;
    Ok((first.local_addr()?.port(), second.local_addr()?.port()))
}

// The next datagram: of two sockets the first receive answers at once, and the second waits.
fn heard<W: Wire>(wire: &mut W, slot: u32, buf: &mut [u8; 64]) -> Heard
    requires { slot < W.slots wire.old }
    ensures { W.slots wire.new ≡ W.slots wire.old }
{
    match wire.receive(slot, buf) {
        Heard::Nothing => wire.receive(slot, buf),
        heard => heard,
    }
}

// The write and what a server takes go to the second port, the read to the first.
fn sends_all<W: Wire>(wire: &mut W, first: u16, second: u16) -> bool
    ensures { W.slots wire.new ≡ W.slots wire.old }
{
    wire.send(0, second, WRITE) && wire.send(0, second, TO_SERVER) && wire.send(1, first, READ)
}

// Both came to the second port, in whatever order.
fn hears_both<W: Wire>(wire: &mut W) -> bool
    requires { 1 < W.slots wire.old }
    ensures { W.slots wire.new ≡ W.slots wire.old }
{
    let mut one = [0; 64];
    let mut other = [0; 64];
    let lengths = (heard(wire, 1, &mut one), heard(wire, 1, &mut other));
    let in_order = one.starts_with(WRITE) && other.starts_with(TO_SERVER);
    let in_turn = one.starts_with(TO_SERVER) && other.starts_with(WRITE);
    lengths == (Heard::Bytes(30), Heard::Bytes(30)) && (in_order || in_turn)
}

fn hears_the_read<W: Wire>(wire: &mut W) -> bool
    requires { 1 < W.slots wire.old }
    ensures { W.slots wire.new ≡ W.slots wire.old }
{
    let mut buf = [0; 64];
    heard(wire, 0, &mut buf) == Heard::Bytes(26) && buf.starts_with(READ)
}

fn is_quiet<W: Wire>(wire: &mut W) -> bool
    requires { 1 < W.slots wire.old }
    ensures { W.slots wire.new ≡ W.slots wire.old }
{
    let mut buf = [0; 64];
    let one = heard(wire, 0, &mut buf);
    let other = heard(wire, 1, &mut buf);
    (one, other) == (Heard::Nothing, Heard::Nothing)
}

#[test]
fn carries_packets_between_two_ports(rt: HostRuntime) -> Result<(), Fail> {
    let (first, second) = free_ports(&rt)?;
    let mut wire = UdpWire::make(rt.alloc(), &rt)?;
    assert_eq!(rt; wire.bind(first), Some(0));
    assert_eq!(rt; wire.bind(second), Some(1));
    assert!(rt; sends_all(&mut wire, first, second));
    assert!(rt; hears_both(&mut wire));
    assert!(rt; hears_the_read(&mut wire));
    assert!(rt; is_quiet(&mut wire));
    assert_eq!(rt; (wire.faults, wire.lost), (0, 0));
    assert_eq!(rt; wire.bind(first), None);
    Ok(())
}

#[test]
fn cuts_a_long_datagram(rt: HostRuntime) -> Result<(), Fail> {
    let (first, _) = free_ports(&rt)?;
    let mut wire = UdpWire::make(rt.alloc(), &rt)?;
    assert_eq!(rt; wire.bind(first), Some(0));
    assert!(rt; wire.send(0, first, WRITE));
    let mut buf = [0; 4];
    assert_eq!(rt; wire.receive(0, &mut buf), Heard::Bytes(4));
    assert_eq!(rt; buf, *b"PG\x01\x02");
    assert_eq!(rt; wire.receive(0, &mut buf), Heard::Nothing);
    Ok(())
}

// Without a socket a send is lost, and nothing else.
#[test]
fn loses_what_has_no_socket(rt: HostRuntime) -> Result<(), Fail> {
    let mut wire = UdpWire::make(rt.alloc(), &rt)?;
    assert!(rt; !wire.send(0, 4000, READ));
    assert_eq!(rt; (wire.faults, wire.lost), (0, 1));
    Ok(())
}
