use peg_directory::Directory;
use peg_name::{ClientId, Config, Holders, Key, Seq, ServerId, Version};
use peg_parts::{Collector, Parts, Taken};
use peg_rules::*;
use peg_stamp::Stamper;
use std::test::Fail;

#[test]
fn a_listed_key_is_written_and_read_by_picks(rt: HostRuntime) -> Result<(), Fail> {
    let config = Config::make(1, 3, 2, 2, 2, 4, 1)?;
    let k = Key::read(b"k")?;
    let keys = [k];
    let mut core = Core::make(rt.alloc(), &config, &keys)?;
    // whether it writes, the sequence number, the pick, and the server and version
    let requests = [
        (true, 1, 0, 0, 1),
        (true, 1, 1, 1, 1),
        (false, 1, 5, 2, 0),
        (true, 2, 5, 2, 2),
    ];
    for (write, seq, pick, server, version) in requests {
        let client = ClientId(0);
        assert!(rt; u64::from(client.0) < core.config().clients() && seq > 0);
        let goes = core.on_request(write, &k, client, Seq(seq), pick);
        let wanted = Forward::To {
            server: ServerId(server),
            version: Version(version),
        };
        assert_eq!(rt; goes, wanted);
    }
    Ok(())
}

#[test]
fn a_listed_key_is_copied(rt: HostRuntime) -> Result<(), Fail> {
    let config = Config::make(1, 3, 2, 2, 2, 4, 1)?;
    let k = Key::read(b"k")?;
    let keys = [k];
    let mut core = Core::make(rt.alloc(), &config, &keys)?;
    let one = ServerId(1);
    assert_eq!(rt; core.copy_source(&k, one), CopyFrom::From(ServerId(2)));
    assert!(rt; u64::from(one.0) < core.config().servers());
    assert_eq!(rt; core.on_reply(one, &k, Version(0)), Note::Added);
    assert_eq!(rt; core.copy_source(&k, one), CopyFrom::Holds);
    assert_eq!(rt; core.copy_source(&k, ServerId(0)), CopyFrom::From(one));
    Ok(())
}

#[test]
fn a_listed_key_is_marked_and_removed(rt: HostRuntime) -> Result<(), Fail> {
    let config = Config::make(1, 3, 2, 2, 2, 4, 1)?;
    let k = Key::read(b"k")?;
    let keys = [k];
    let mut core = Core::make(rt.alloc(), &config, &keys)?;
    let (home, mark) = (ServerId(2), Version(1));
    assert_eq!(rt; core.demote(&k), MarkDid::Marked { mark });
    assert_eq!(rt; core.demote(&k), MarkDid::AlreadyMarked { mark });
    assert!(rt; u64::from(home.0) < core.config().servers());
    let removed = Note::Removed { listing: 0 };
    assert_eq!(rt; core.on_reply(home, &k, mark), removed);
    assert_eq!(rt; core.fence_of(&k), FenceOf::NotListed);
    assert_eq!(rt; core.demote(&k), MarkDid::NotListed);
    Ok(())
}

#[test]
fn a_promotion_takes_a_version(rt: HostRuntime) -> Result<(), Fail> {
    let config = Config::make(1, 3, 2, 2, 2, 4, 1)?;
    let (k, a, c) = (Key::read(b"k")?, Key::read(b"a")?, Key::read(b"c")?);
    let keys: [Key; 0] = [];
    let mut core = Core::make(rt.alloc(), &config, &keys)?;
    let client = ClientId(0);
    assert!(rt; u64::from(client.0) < core.config().clients());
    core.on_request(true, &k, client, Seq(1), 0);
    assert_eq!(rt; core.promote(&k, 4), Promoted::Listed);
    assert_eq!(rt; core.promote(&k, 5), Promoted::Already { listing: 4 });
    let fence = FenceOf::At {
        home: ServerId(2),
        base: Version(2),
    };
    assert_eq!(rt; core.fence_of(&k), fence);
    assert_eq!(rt; core.promote(&a, 5), Promoted::Listed);
    assert_eq!(rt; core.promote(&c, 6), Promoted::Full { count: 2 });
    assert!(rt; u64::from(client.0) < core.config().clients());
    assert!(rt; core.on_void(client, Seq(1), Version(1)));
    assert!(rt; u64::from(client.0) < core.config().clients());
    let anew = core.on_request(true, &k, client, Seq(1), 0);
    let picked = Forward::To {
        server: ServerId(0),
        version: Version(4),
    };
    assert_eq!(rt; anew, picked);
    Ok(())
}

#[test]
fn the_last_version_is_given_to_nobody(rt: HostRuntime) -> Result<(), Fail> {
    let config = Config::make(1, 3, 2, 2, 2, 4, 18446744073709551615)?;
    let keys = [Key::read(b"k")?];
    let a = Key::read(b"a")?;
    let mut core = Core::make(rt.alloc(), &config, &keys)?;
    let (client, next) = (ClientId(1), Version(18446744073709551615));
    assert!(rt; u64::from(client.0) < core.config().clients());
    let exhausted = core.on_request(true, &a, client, Seq(1), 0);
    assert_eq!(rt; exhausted, Forward::Exhausted { next });
    assert_eq!(rt; core.promote(&a, 1), Promoted::NoVersion { next });
    Ok(())
}

#[test]
fn a_handover_brings_stamps_and_entries(rt: HostRuntime) -> Result<(), Fail> {
    let config = Config::make(1, 3, 2, 2, 2, 4, 1)?;
    let keys = [Key::read(b"k")?];
    let mut core = Core::make(rt.alloc(), &config, &keys)?;
    let stamper = Stamper::make(rt.alloc(), &config)?;
    let directory = Directory::make(rt.alloc(), &config)?;
    let mut sealed = Parts::make(rt.alloc(), &config)?;
    sealed.seal(&stamper, &directory, 7);
    let mut collector = Collector::make(rt.alloc(), &config)?;
    let part = sealed.part(0);
    assert!(rt; part.len() <= 512);
    let taken = core.take_part(&mut collector, 0, 2, 0, 1, part);
    assert_eq!(rt; taken, Taken::Whole { last: 7 });
    assert!(rt; core.directory().is_empty());
    Ok(())
}

#[test]
fn it_says_where_a_request_may_go(rt: HostRuntime) -> Result<(), Fail> {
    let config = Config::make(1, 3, 2, 2, 2, 4, 1)?;
    let (k, a) = (Key::read(b"k")?, Key::read(b"a")?);
    let keys = [k];
    let mut core = Core::make(rt.alloc(), &config, &keys)?;
    let client = ClientId(0);
    assert!(rt; u64::from(client.0) < core.config().clients());
    core.on_request(true, &a, client, Seq(2), 0);
    // whether it writes, its key and sequence number; `a` was written with number 2
    let rows = [
        (false, k, 3, Allowed::Holders(Holders::only(ServerId(2)))),
        (true, k, 3, Allowed::Any),
        (false, a, 3, Allowed::Home(ServerId(1))),
        (true, a, 2, Allowed::Home(ServerId(1))),
        (true, k, 1, Allowed::Nothing),
    ];
    for (write, key, seq, wanted) in rows {
        assert!(rt; u64::from(client.0) < core.config().clients());
        assert_eq!(rt; core.allowed(write, &key, client, Seq(seq)), wanted);
    }
    Ok(())
}
