use crate::{
    ClientId, Config, ConfigFault, Format, Holders, Key, KeyFault, ServerId, SwitchId, Value, home,
};
use std::test::Fail;

#[test]
fn keys_are_homed_and_ordered(rt: HostRuntime) -> Result<(), Fail> {
    let homes = [
        (1, 3, b'k', 2),
        (1, 3, b'a', 1),
        (1, 3, b'c', 0),
        (2, 64, b'k', 43),
    ];
    for (format, servers, letter, server) in homes {
        let config = Config::make(format, servers, 2, 2, 4, 4, 1)?;
        let key = Key::read(&[letter])?;
        assert_eq!(rt; home(&config, &key), ServerId(server), "home of {letter}");
    }
    let rising = [
        b"a".as_slice(),
        b"aa".as_slice(),
        b"ab".as_slice(),
        b"b".as_slice(),
    ];
    for pair in rising.windows(2) {
        assert!(rt; Key::read(pair[0])? < Key::read(pair[1])?);
    }
    assert_eq!(rt; Key::read(&[0; 33]), Err(KeyFault::TooLong));
    assert_eq!(rt; Value::read(b"x")?.bytes(), b"x".as_slice());
    Ok(())
}

#[test]
fn the_first_fault_is_named(rt: HostRuntime) {
    let faults = [
        ([3, 0, 0, 0, 0, 0, 0], ConfigFault::Format),
        ([1, 17, 0, 0, 0, 0, 0], ConfigFault::Servers),
        ([1, 16, 257, 0, 0, 0, 0], ConfigFault::Clients),
        ([2, 64, 1024, 5, 0, 0, 0], ConfigFault::Switches),
        ([2, 64, 1024, 4, 65, 0, 0], ConfigFault::Listed),
        ([2, 64, 1024, 4, 64, 13, 0], ConfigFault::Hot),
        ([2, 64, 1024, 4, 64, 12, 0], ConfigFault::First),
    ];
    for (n, fault) in faults {
        let made = Config::make(n[0], n[1], n[2], n[3], n[4], n[5], n[6]);
        assert!(rt; matches!(made, Err(found) if found == fault), "{n:?}");
    }
}

#[test]
fn a_rack_tells_its_numbers(rt: HostRuntime) -> Result<(), Fail> {
    let racks = [
        (Format::One, [1, 16, 256, 4, 64, 12, 1]),
        (Format::Two, [2, 64, 1024, 3, 5, 7, 9]),
    ];
    for (format, n) in racks {
        let config = Config::make(n[0], n[1], n[2], n[3], n[4], n[5], n[6])?;
        assert!(rt; config.format() == format);
        let told = [
            config.servers(),
            config.clients(),
            config.switches(),
            config.listed(),
            config.hot(),
            config.first(),
        ];
        for place in 0..6 {
            assert_eq!(rt; told[place], n[place + 1], "{n:?} at {place}");
        }
    }
    let rack = Config::make(1, 3, 2, 2, 4, 4, 1)?;
    assert!(rt; rack.has_client(ClientId(1)) && !rack.has_client(ClientId(2)));
    assert!(rt; rack.has_server(ServerId(2)) && !rack.has_server(ServerId(3)));
    assert!(rt; rack.has_switch(SwitchId(1)) && !rack.has_switch(SwitchId(2)));
    Ok(())
}

#[test]
fn holders_rise(rt: HostRuntime) {
    let holders = Holders::only(ServerId(5))
        .with(ServerId(0))
        .with(ServerId(63));
    assert_eq!(rt; holders.bits(), 0x8000_0000_0000_0021);
    assert_eq!(rt; holders.count(), 3);
    assert_eq!(rt; holders.nth(1), ServerId(5));
    assert!(rt; holders.has(ServerId(63)) && !holders.has(ServerId(64)));
    let read = Holders::of_bits(0b1010);
    assert_eq!(rt; read.count(), 2);
    assert_eq!(rt; read.nth(0), ServerId(1));
    assert_eq!(rt; read.nth(1), ServerId(3));
}
