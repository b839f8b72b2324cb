use crate::text::config_in;
use peg_event::{Event, Line, Said};
use peg_name::{ClientId, Key, Seq};
use peg_text::{
    RacksEvent, RacksLine, Text, line_in_rack_text, rack_for, rack_number_text, rack_taking,
    racks_line_of, racks_of, racks_text,
};
use std::test::Fail;

// What a line says to two racks, the first of format 1 and the second of format 2: the rack that
// takes it, and whether the line names it.
fn taken_by(line: &[u8]) -> Result<Option<(u8, bool)>, Fail> {
    let configs = [config_in(1)?, config_in(2)?];
    let mut room = [0; 1024];
    match &racks_line_of(&configs, line, &mut room) {
        Some(RacksLine::Event(event)) => {
            let is_within = matches!(event, RacksEvent::Within { .. });
            Ok(Some((rack_taking(2, event), is_within)))
        }
        Some(RacksLine::End) => Ok(Some((9, false))),
        None => Ok(None),
    }
}

// The key `k` goes to rack 1, and `b` to rack 0.
#[test]
fn lines_of_several_racks_are_read(rt: HostRuntime) -> Result<(), Fail> {
    for (line, taken) in [
        (b"write 0 k =x".as_slice(), (1, false)),
        (b"read 1 b".as_slice(), (0, false)),
        (b"delete 1 k".as_slice(), (1, false)),
        (b"rack 1 deliver 0".as_slice(), (1, true)),
        (b"rack 0 giveup 0".as_slice(), (0, true)),
        (b"rack 1 promote b".as_slice(), (1, true)),
        (b"end".as_slice(), (9, false)),
    ] {
        assert_eq!(rt; taken_by(line)?, Some(taken));
    }
    Ok(())
}

#[test]
fn other_lines_are_none_of_several_racks(rt: HostRuntime) -> Result<(), Fail> {
    for line in [
        b"rack 1 read 0 k".as_slice(),
        b"rack 1 write 0 k =x".as_slice(),
        b"rack 0 end".as_slice(),
        b"rack 2 clear".as_slice(),
        b"rack 01 clear".as_slice(),
        b"rack 1".as_slice(),
        b"rack".as_slice(),
        b"delete 1 b".as_slice(),
        b"read 2 k".as_slice(),
        b"giveup 0".as_slice(),
        b"copy k b".as_slice(),
        b"end ".as_slice(),
        b"".as_slice(),
    ] {
        assert!(rt; taken_by(line)?.is_none());
    }
    Ok(())
}

#[test]
fn counts_of_racks_are_read(rt: HostRuntime) {
    assert_eq!(rt; racks_of(b"racks 1"), Some(1));
    assert_eq!(rt; racks_of(b"racks 8"), Some(8));
    for line in [
        b"racks 0".as_slice(),
        b"racks 9".as_slice(),
        b"racks 02".as_slice(),
        b"racks 2 2".as_slice(),
        b"racks".as_slice(),
        b"rack 2".as_slice(),
    ] {
        assert!(rt; racks_of(line).is_none());
    }
}

#[test]
fn keys_are_divided_by_their_sums(rt: HostRuntime) -> Result<(), Fail> {
    assert_eq!(rt; rack_for(&Key::read(b"k")?, 2), 1);
    assert_eq!(rt; rack_for(&Key::read(b"kb")?, 8), 5);
    assert_eq!(rt; rack_for(&Key::read(&[255; 32])?, 7), 5);
    let clear = RacksEvent::Within {
        rack: 3,
        event: Event::Clear,
    };
    assert_eq!(rt; rack_taking(4, &clear), 3);
    Ok(())
}

#[test]
fn lines_of_racks_are_printed(rt: HostRuntime) {
    let mut out = Text::make();
    racks_text(1, 2, &mut out);
    assert_eq!(rt; out.bytes(), b"1 racks 2".as_slice());
    rack_number_text(1, &mut out);
    assert_eq!(rt; out.bytes(), b"rack 1".as_slice());
    let line = Line {
        said: Said::Write {
            client: ClientId(0),
            seq: Seq(1),
        },
        sent: Some((0, 0)),
    };
    line_in_rack_text(4, 1, &line, &mut out);
    assert_eq!(rt; out.bytes(), b"4 rack 1 write 0 seq 1 sends 0".as_slice());
}
