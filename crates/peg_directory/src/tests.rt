use crate::*;
use peg_name::{Config, Holders, Key, ServerId, Version};
use std::test::Fail;

#[test]
fn keys_are_listed_in_order_while_there_is_room(rt: HostRuntime) -> Result<(), Fail> {
    let config = Config::make(1, 3, 2, 2, 2, 4, 1)?;
    let (k, a, c) = (Key::read(b"k")?, Key::read(b"a")?, Key::read(b"c")?);
    let mut directory = Directory::make(rt.alloc(), &config)?;
    let home = ServerId(2);
    assert!(rt; directory.is_empty() && directory.config().servers() == 3);
    assert!(rt; u64::from(home.0) < directory.config().servers());
    let listed = directory.promote(&k, 4, home, Version(7));
    assert_eq!(rt; listed, Promoted::Listed);
    let again = directory.promote(&k, 5, home, Version(8));
    assert_eq!(rt; again, Promoted::Already { listing: 4 });
    let second = directory.promote(&a, 6, home, Version(9));
    assert_eq!(rt; second, Promoted::Listed);
    let third = directory.promote(&c, 7, home, Version(10));
    assert_eq!(rt; third, Promoted::Full { count: 2 });
    assert_eq!(rt; directory.len(), 2);
    assert_eq!(rt; directory.base_of(&k), Some(Version(7)));
    assert_eq!(rt; directory.base_of(&c), None);
    assert!(rt; directory.find(&c).is_none());
    let (key, entry) = directory.entry(1);
    assert_eq!(rt; (key, entry.listing, entry.mark), (a, 6, None));
    assert_eq!(rt; (entry.base, entry.completed), (Version(9), Version(9)));
    assert_eq!(rt; entry.holders.bits(), 4);
    directory.clear();
    assert!(rt; directory.is_empty());
    Ok(())
}

#[test]
fn replies_are_noted(rt: HostRuntime) -> Result<(), Fail> {
    let config = Config::make(1, 3, 2, 2, 2, 4, 1)?;
    let (k, a) = (Key::read(b"k")?, Key::read(b"a")?);
    let mut directory = Directory::make(rt.alloc(), &config)?;
    let home = ServerId(2);
    assert!(rt; u64::from(home.0) < directory.config().servers());
    directory.promote(&k, 4, home, Version(7));
    // the server and version of each report, the note, and the holders after it
    let replies = [
        (0, 6, Note::Kept, 0b100),
        (2, 7, Note::Kept, 0b100),
        (1, 7, Note::Added, 0b110),
        (0, 9, Note::Raised, 0b001),
        (1, 8, Note::Kept, 0b001),
        (1, 9, Note::Added, 0b011),
        (1, 9, Note::Kept, 0b011),
    ];
    for (server, version, wanted, holders) in replies {
        let server = ServerId(server);
        assert!(rt; u64::from(server.0) < directory.config().servers());
        let note = directory.note_reply(&k, home, server, Version(version));
        assert_eq!(rt; note, wanted, "version {version}");
        let Some(entry) = directory.find(&k) else {
            continue;
        };
        assert_eq!(rt; entry.holders.bits(), holders, "version {version}");
    }
    assert!(rt; u64::from(home.0) < directory.config().servers());
    assert_eq!(rt;
        directory.note_reply(&a, home, home, Version(9)),
        Note::Unlisted
    );
    Ok(())
}

#[test]
fn a_marked_entry_goes_once_its_home_reports(rt: HostRuntime) -> Result<(), Fail> {
    let config = Config::make(1, 3, 2, 2, 2, 4, 1)?;
    let (k, a) = (Key::read(b"k")?, Key::read(b"a")?);
    let mut directory = Directory::make(rt.alloc(), &config)?;
    let home = ServerId(2);
    assert!(rt; u64::from(home.0) < directory.config().servers());
    directory.promote(&k, 4, home, Version(7));
    directory.promote(&a, 5, home, Version(8));
    let mark = Version(10);
    assert_eq!(rt; directory.mark(&k, mark), MarkDid::Marked { mark });
    assert_eq!(rt;
        directory.mark(&k, Version(11)),
        MarkDid::AlreadyMarked { mark }
    );
    // the server and version of each report, and the note
    let replies = [
        (2, 9, Note::Raised),
        (1, 10, Note::Raised),
        (2, 11, Note::Removed { listing: 4 }),
        (2, 12, Note::Unlisted),
    ];
    for (server, version, wanted) in replies {
        let server = ServerId(server);
        assert!(rt; u64::from(server.0) < directory.config().servers());
        let note = directory.note_reply(&k, home, server, Version(version));
        assert_eq!(rt; note, wanted, "version {version}");
    }
    assert_eq!(rt; directory.mark(&k, mark), MarkDid::NotListed);
    assert_eq!(rt; directory.len(), 1);
    assert!(rt; u64::from(home.0) < directory.config().servers());
    let listed = directory.promote(&k, 6, home, Version(13));
    assert_eq!(rt; listed, Promoted::Listed);
    assert!(rt; directory.len() == 2);
    assert_eq!(rt; directory.entry(0).0, a);
    assert_eq!(rt; directory.entry(1).0, k);
    Ok(())
}

#[test]
fn entries_are_loaded(rt: HostRuntime) -> Result<(), Fail> {
    let config = Config::make(1, 3, 2, 2, 2, 4, 1)?;
    let k = Key::read(b"k")?;
    let mut directory = Directory::make(rt.alloc(), &config)?;
    let mut other = Directory::make(rt.alloc(), &config)?;
    let home = ServerId(2);
    assert!(rt; u64::from(home.0) < directory.config().servers());
    directory.promote(&k, 4, home, Version(7));
    assert!(rt; directory.len() > 0);
    other.load(&[directory.entry(0)]);
    assert_eq!(rt; other.len(), 1);
    assert_eq!(rt; other.base_of(&k), Some(Version(7)));
    Ok(())
}
