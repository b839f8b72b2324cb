use crate::text::config_in;
use peg_event::Event;
use peg_name::Format;
use peg_text::{Entry, event_of, rack_of};
use std::test::Fail;

fn delivery_in(entry: &Option<Entry<'_>>) -> Option<(u64, u64)> {
    match entry {
        Some(Entry::Event(Event::Deliver { packet, pick })) => Some((*packet, *pick)),
        _ => None,
    }
}

fn key_in<'a>(entry: &'a Option<Entry<'_>>) -> Option<&'a [u8]> {
    match entry {
        Some(Entry::Event(Event::Promote { key })) => Some(key.bytes()),
        _ => None,
    }
}

#[test]
fn events_are_read(rt: HostRuntime) -> Result<(), Fail> {
    let config = config_in(1)?;
    let mut room = [0; 1024];
    let delivery = event_of(&config, b"deliver 7", &mut room);
    assert_eq!(rt; delivery_in(&delivery), Some((7, 0)));
    let greatest = event_of(&config, b"deliver 0 18446744073709551615", &mut room);
    assert_eq!(rt; delivery_in(&greatest), Some((0, 18446744073709551615)));
    let promotion = event_of(&config, b"promote a%25%00~%FF", &mut room);
    assert_eq!(rt;
        key_in(&promotion).ok_or("no key")?,
        b"a%\x00~\xff".as_slice()
    );
    Ok(())
}

#[test]
fn each_kind_of_line_is_read(rt: HostRuntime) -> Result<(), Fail> {
    let config = config_in(1)?;
    let mut room = [0; 1024];
    for line in [
        b"read 1 k".as_slice(),
        b"write 1 k =".as_slice(),
        b"resend 1".as_slice(),
        b"giveup 1".as_slice(),
        b"deliver 7 0".as_slice(),
        b"junk client 1 x".as_slice(),
        b"junk switch 1 x".as_slice(),
        b"junk controller x".as_slice(),
        b"promote k".as_slice(),
        b"demote k".as_slice(),
        b"fence k".as_slice(),
        b"handover 0".as_slice(),
        b"clear".as_slice(),
        b"retry".as_slice(),
        b"survey".as_slice(),
        b"plan 8 2".as_slice(),
        b"end".as_slice(),
    ] {
        assert!(rt; event_of(&config, line, &mut room).is_some());
    }
    Ok(())
}

#[test]
fn other_bytes_are_no_line(rt: HostRuntime) -> Result<(), Fail> {
    let config = config_in(1)?;
    let mut room = [0; 1024];
    for line in [
        b"".as_slice(),
        b"read 00 k".as_slice(),
        b"read 2 k".as_slice(),
        b"read +1 k".as_slice(),
        b"read 1".as_slice(),
        b"read 1 %6B".as_slice(),
        b"read 1 %ff".as_slice(),
        b"read 1 a%2".as_slice(),
        b"read 1 k ".as_slice(),
        b" read 1 k".as_slice(),
        b"read  1 k".as_slice(),
        b"read 1 kkkkkkkkkkkkkkkkkkkkkkkkkkkkkkkkk".as_slice(),
        b"write 1 k x".as_slice(),
        b"write 1 k".as_slice(),
        b"delete 1 k".as_slice(),
        b"resend 1 1".as_slice(),
        b"deliver".as_slice(),
        b"deliver 1 2 3".as_slice(),
        b"deliver 18446744073709551616".as_slice(),
        b"junk server 2 x".as_slice(),
        b"junk server 0 xAF".as_slice(),
        b"junk server 0 x0".as_slice(),
        b"junk node 0 x".as_slice(),
        b"promote ".as_slice(),
        b"copy k 256".as_slice(),
        b"plan 1".as_slice(),
        b"clear 1".as_slice(),
        b"End".as_slice(),
        b"end ".as_slice(),
    ] {
        assert!(rt; event_of(&config, line, &mut room).is_none());
    }
    Ok(())
}

#[test]
fn rack_lines_are_read(rt: HostRuntime) -> Result<(), Fail> {
    let line = b"rack servers=16 clients=256 switches=4 listed=2 hot=12 first=7 +k ++";
    let rack = rack_of(line).ok_or("a rack")?;
    assert_eq!(rt; rack.config().servers(), 16);
    assert_eq!(rt; rack.config().clients(), 256);
    assert_eq!(rt; rack.config().first(), 7);
    assert_eq!(rt; rack.config().format(), Format::One);
    assert_eq!(rt; rack.keys().len(), 2);
    let line = b"rack servers=64 clients=1024 switches=1 listed=1 hot=1 first=1 format=2";
    let rack = rack_of(line).ok_or("a rack")?;
    assert_eq!(rt; rack.config().format(), Format::Two);
    assert_eq!(rt; rack.keys().len(), 0);
    Ok(())
}

#[test]
fn other_bytes_are_no_rack(rt: HostRuntime) {
    for line in [
        b"".as_slice(),
        b"rack".as_slice(),
        b"rack servers=17 clients=1 switches=1 listed=1 hot=1 first=1".as_slice(),
        b"rack servers=1 clients=0 switches=1 listed=1 hot=1 first=1".as_slice(),
        b"rack servers=1 clients=1 switches=5 listed=1 hot=1 first=1".as_slice(),
        b"rack servers=1 clients=1 switches=1 listed=65 hot=1 first=1".as_slice(),
        b"rack servers=1 clients=1 switches=1 listed=1 hot=13 first=1".as_slice(),
        b"rack servers=1 clients=1 switches=1 listed=1 hot=1 first=0".as_slice(),
        b"rack servers=1 clients=1 switches=1 listed=1 hot=1 first=1 format=1".as_slice(),
        b"rack servers=1 clients=1 switches=1 listed=1 hot=1 first=1 +a +b".as_slice(),
        b"rack servers=1 clients=1 switches=1 listed=2 hot=1 first=1 +a +a".as_slice(),
        b"rack servers=1 clients=1 switches=1 listed=2 hot=1 first=1 +".as_slice(),
        b"rack servers=1 clients=1 switches=1 listed=2 hot=1 first=1 +a format=2".as_slice(),
        b"rack clients=1 servers=1 switches=1 listed=1 hot=1 first=1".as_slice(),
    ] {
        assert!(rt; rack_of(line).is_none());
    }
}
