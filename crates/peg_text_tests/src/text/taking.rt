use crate::text::config_in;
use peg_event::Event;
use peg_name::{Node, ServerId, SwitchId};
use peg_text::{RackEntry, Text, foreign_count_text, foreign_text, rack_entry_of};
use std::test::Fail;

fn take_in(entry: &Option<RackEntry<'_>>) -> Option<(Node, u64)> {
    match entry {
        Some(RackEntry::Take { node, pick }) => Some((*node, *pick)),
        _ => None,
    }
}

#[test]
fn lines_of_a_rack_over_a_wire_are_read(rt: HostRuntime) -> Result<(), Fail> {
    let config = config_in(1)?;
    let mut room = [0; 1024];
    for (line, take) in [
        (b"take controller".as_slice(), (Node::Controller, 0)),
        (
            b"take switch 1 7".as_slice(),
            (Node::Switch(SwitchId(1)), 7),
        ),
        (
            b"take server 0 0".as_slice(),
            (Node::Server(ServerId(0)), 0),
        ),
    ] {
        let entry = rack_entry_of(&config, line, &mut room);
        assert_eq!(rt; take_in(&entry), Some(take));
    }
    let round = rack_entry_of(&config, b"round", &mut room);
    assert!(rt; matches!(&round, Some(RackEntry::Round)));
    let end = rack_entry_of(&config, b"end", &mut room);
    assert!(rt; matches!(&end, Some(RackEntry::End)));
    let clear = rack_entry_of(&config, b"clear", &mut room);
    assert!(rt; matches!(&clear, Some(RackEntry::Event(Event::Clear))));
    Ok(())
}

#[test]
fn other_lines_are_none_of_a_rack_over_a_wire(rt: HostRuntime) -> Result<(), Fail> {
    let config = config_in(1)?;
    let mut room = [0; 1024];
    for line in [
        b"deliver 0".as_slice(),
        b"junk controller x".as_slice(),
        b"take".as_slice(),
        b"take client 2".as_slice(),
        b"take controller 0 0".as_slice(),
        b"take controller 01".as_slice(),
        b"round 1".as_slice(),
        b"end ".as_slice(),
        b"".as_slice(),
    ] {
        assert!(rt; rack_entry_of(&config, line, &mut room).is_none());
    }
    Ok(())
}

#[test]
fn foreign_datagrams_are_printed(rt: HostRuntime) {
    let mut out = Text::make();
    foreign_text(4, &Node::Switch(SwitchId(0)), &mut out);
    assert_eq!(rt; out.bytes(), b"4 foreign switch 0".as_slice());
    foreign_count_text(5, 1, &mut out);
    assert_eq!(rt; out.bytes(), b"5 end foreign 1".as_slice());
}
