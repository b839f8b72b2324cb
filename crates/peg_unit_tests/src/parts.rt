use peg_directory::Directory;
use peg_name::{ClientId, Config, Key, Seq, ServerId, Version};
use peg_parts::*;
use peg_stamp::Stamper;
use std::test::Fail;

#[test]
fn a_state_is_sealed(rt: HostRuntime) -> Result<(), Fail> {
    let config = Config::make(1, 3, 1, 2, 2, 4, 1)?;
    let mut stamper = Stamper::make(rt.alloc(), &config)?;
    assert!(rt; config.clients() == 1 && config.servers() == 3);
    stamper.set_next(Version(9));
    stamper.set_row(ClientId(0), Seq(258), Version(8));
    let mut directory = Directory::make(rt.alloc(), &config)?;
    directory.promote(&Key::read(b"k")?, 4, ServerId(2), Version(6));
    let mut parts = Parts::make(rt.alloc(), &config)?;
    assert_eq!(rt; parts.count(), 0);
    parts.seal(&stamper, &directory, 5);
    assert!(rt; parts.count() == 1);
    let wanted = [
        0, 0, 0, 0, 0, 0, 0, 9, 0, 0, 0, 0, 0, 0, 0, 5, 0, 1, // the next version, the Seal, clients
        0, 0, 0, 0, 0, 0, 1, 2, 0, 0, 0, 0, 0, 0, 0, 8, // the client's row
        1, 1, b'k', 0, 0, 0, 0, 0, 0, 0, 4, // an entry: its key, and the number that listed it
        0, 0, 0, 0, 0, 0, 0, 6, 0, 0, 0, 0, 0, 0, 0, 6, 0, 4, // base, completed, server 2
        0, 0, 0, 0, 0, 0, 0, 0, // no mark
    ];
    assert_eq!(rt; parts.part(0), wanted.as_slice());
    Ok(())
}

#[test]
fn the_largest_states_have_room(rt: HostRuntime) -> Result<(), Fail> {
    // the format, its most servers and clients, and how many bytes the last of the parts has
    for (format, servers, clients, count, last) in [(1, 16, 256, 17, 211), (2, 64, 1024, 42, 83)] {
        let config = Config::make(format, servers, clients, 4, 64, 12, 1)?;
        let stamper = Stamper::make(rt.alloc(), &config)?;
        let mut directory = Directory::make(rt.alloc(), &config)?;
        for number in 0..64 {
            let home = ServerId(number % 16);
            assert!(rt; u64::from(home.0) < directory.config().servers());
            directory.promote(&Key::read(&[number; 32])?, 1, home, Version(0));
        }
        let mut parts = Parts::make(rt.alloc(), &config)?;
        parts.seal(&stamper, &directory, 1);
        assert!(rt; parts.count() == count);
        assert_eq!(rt; parts.part(count - 1).len(), last, "format {format}");
    }
    Ok(())
}

#[test]
fn parts_are_collected_in_either_order(rt: HostRuntime) -> Result<(), Fail> {
    let config = Config::make(1, 3, 40, 2, 4, 4, 1)?;
    assert!(rt; config.clients() == 40);
    let mut sealed = Stamper::make(rt.alloc(), &config)?;
    sealed.set_next(Version(9));
    sealed.set_row(ClientId(39), Seq(7), Version(8));
    let directory = Directory::make(rt.alloc(), &config)?;
    let mut parts = Parts::make(rt.alloc(), &config)?;
    parts.seal(&sealed, &directory, 5);
    assert!(rt; parts.count() == 2);
    assert_eq!(rt; parts.part(0).len() + parts.part(1).len(), 659);
    for (first, second) in [(0, 1), (1, 0)] {
        let mut stamper = Stamper::make(rt.alloc(), &config)?;
        let mut directory = Directory::make(rt.alloc(), &config)?;
        let mut collector = Collector::make(rt.alloc(), &config)?;
        assert!(rt; parts.count() == 2 && first < 2 && second < 2);
        let part = parts.part(first);
        assert!(rt; part.len() <= 512);
        let held = collector.take(1, 2, first, 2, part, &mut stamper, &mut directory);
        assert_eq!(rt; held, Taken::More { held: 1 });
        let part = parts.part(second);
        assert!(rt; part.len() <= 512);
        let whole = collector.take(1, 2, second, 2, part, &mut stamper, &mut directory);
        assert_eq!(rt; whole, Taken::Whole { last: 5 });
        assert_eq!(rt; stamper.next(), Version(9));
        assert_eq!(rt; stamper.row(ClientId(39)), (Seq(7), Version(8)));
    }
    Ok(())
}

#[test]
fn parts_are_judged(rt: HostRuntime) -> Result<(), Fail> {
    let config = Config::make(2, 3, 1, 2, 2, 4, 1)?;
    let mut stamper = Stamper::make(rt.alloc(), &config)?;
    let mut directory = Directory::make(rt.alloc(), &config)?;
    let mut collector = Collector::make(rt.alloc(), &config)?;
    let state = [
        0, 0, 0, 0, 0, 0, 0, 9, 0, 0, 0, 0, 0, 0, 0, 5, 0, 1, // the next version, the Seal, clients
        0, 0, 0, 0, 0, 0, 1, 2, 0, 0, 0, 0, 0, 0, 0, 8, // the client's row
        0, // no entries
    ];
    // the epoch, the index and count of a part, where its bytes begin and end, and the answer
    let steps = [
        (2, 0, 2, 0, 20, Taken::Old),
        (4, 0, 2, 0, 20, Taken::More { held: 1 }),
        (3, 1, 2, 20, 35, Taken::Old),
        (4, 0, 2, 5, 9, Taken::Repeated),
        (4, 1, 3, 20, 35, Taken::Malformed),
        (4, 1, 2, 20, 34, Taken::Malformed),
        (5, 0, 1, 1, 35, Taken::Malformed),
        (4, 1, 2, 20, 35, Taken::Whole { last: 5 }),
        (3, 0, 1, 0, 35, Taken::Whole { last: 5 }),
    ];
    for (epoch, index, count, from, to, wanted) in steps {
        assert!(rt; index < count && count < 4 && from <= to && to <= 35);
        let part = &state[from..to];
        let answer = collector.take(2, epoch, index, count, part, &mut stamper, &mut directory);
        assert!(rt;
            answer == wanted,
            "part {index} of {count} of epoch {epoch}"
        );
    }
    assert_eq!(rt; stamper.next(), Version(9));
    Ok(())
}
