use crate::text::config_in;
use peg_event::Event;
use peg_name::{Node, ServerId, SwitchId};
use peg_text::{
    AuditEntry, Text, audit_entry_of, no_foreign_text, no_other_text, sent_text, took_text,
    yes_text,
};
use std::test::Fail;

#[test]
fn lines_of_records_are_read(rt: HostRuntime) -> Result<(), Fail> {
    let config = config_in(1)?;
    let (mut room, mut datagram) = ([0; 1024], [0; 1153]);
    let took = audit_entry_of(
        &config,
        false,
        b"took switch 1 7 x00ff",
        &mut room,
        &mut datagram,
    );
    assert!(rt;
        matches!(
            &took,
            Some(AuditEntry::Took {
                node: Node::Switch(SwitchId(1)),
                pick: 7,
                bytes: [0, 255]
            })
        )
    );
    let sent = audit_entry_of(&config, true, b"sent server 0 x", &mut room, &mut datagram);
    assert!(rt;
        matches!(
            &sent,
            Some(AuditEntry::Sent {
                node: Node::Server(ServerId(0)),
                bytes: []
            })
        )
    );
    let clear = audit_entry_of(&config, false, b"clear", &mut room, &mut datagram);
    assert!(rt; matches!(&clear, Some(AuditEntry::Event(Event::Clear))));
    let end = audit_entry_of(&config, false, b"end", &mut room, &mut datagram);
    assert!(rt; matches!(&end, Some(AuditEntry::End)));
    Ok(())
}

#[test]
fn other_lines_are_none_of_records(rt: HostRuntime) -> Result<(), Fail> {
    let config = config_in(1)?;
    let (mut room, mut datagram) = ([0; 1024], [0; 1153]);
    for line in [
        b"deliver 0".as_slice(),
        b"junk controller x".as_slice(),
        b"took controller x".as_slice(),
        b"took controller 00 x".as_slice(),
        b"took switch 2 0 x".as_slice(),
        b"took controller 0 xA0".as_slice(),
        b"took controller 0 x0".as_slice(),
        b"sent controller".as_slice(),
        b"sent controller x x".as_slice(),
        b"end ".as_slice(),
        b"".as_slice(),
    ] {
        let entry = audit_entry_of(&config, true, line, &mut room, &mut datagram);
        assert!(rt; entry.is_none());
    }
    let early = audit_entry_of(
        &config,
        false,
        b"sent controller x",
        &mut room,
        &mut datagram,
    );
    assert!(rt; early.is_none());
    Ok(())
}

#[test]
fn records_are_printed(rt: HostRuntime) {
    let mut out = Text::make();
    took_text(&Node::Switch(SwitchId(1)), 7, &[0, 175, 255], &mut out);
    assert_eq!(rt; out.bytes(), b"took switch 1 7 x00afff".as_slice());
    sent_text(&Node::Controller, &[], &mut out);
    assert_eq!(rt; out.bytes(), b"sent controller x".as_slice());
    yes_text(3, 2, &mut out);
    assert_eq!(rt; out.bytes(), b"yes 3 operations 2 keys".as_slice());
    no_foreign_text(4, &mut out);
    assert_eq!(rt; out.bytes(), b"no foreign 4".as_slice());
    no_other_text(2, &mut out);
    assert_eq!(rt; out.bytes(), b"no other 2".as_slice());
}
