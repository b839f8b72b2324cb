use crate::*;
use peg_name::{ClientId, Format, Node};
use std::test::Fail;

#[test]
fn slots_are_used_again(rt: HostRuntime) -> Result<(), Fail> {
    let mut pool = SlotPool::make(rt.alloc(), 4);
    let first = pool.put(b"ab")?;
    let second = pool.put(b"cd")?;
    pool.free(0);
    let again = pool.put(b"ef".as_slice())?;
    pool.replace(1, b"ghij");
    assert_eq!(rt; (first, second, again), (0, 1, 0));
    assert_eq!(rt; pool.get(0), b"ef".as_slice());
    assert_eq!(rt; pool.get(1), b"ghij".as_slice());
    pool.reserve(70)?;
    assert!(rt; pool.spare() >= 70);
    assert_eq!(rt; pool.get(0), b"ef".as_slice());
    assert_eq!(rt; pool.get(1), b"ghij".as_slice());
    Ok(())
}

#[test]
fn packets_stay_in_flight(rt: HostRuntime) -> Result<(), Fail> {
    let mut soup = Soup::make(rt.alloc(), Format::One);
    assert!(rt; soup.is_empty());
    soup.reserve(1)?;
    assert!(rt; soup.spare() >= 1);
    let client = Node::Client(ClientId(3));
    let first = soup.push(Node::Controller, b"ab")?;
    let second = soup.push(client, b"")?;
    assert_eq!(rt; (first, second, soup.len()), (0, 1, 2));
    let (to, bytes) = soup.get(0);
    assert!(rt; to == Node::Controller && bytes == b"ab".as_slice());
    let (to, bytes) = soup.get(1);
    assert!(rt; to == client && bytes.is_empty());
    let long = [7; 129];
    assert_eq!(rt; soup.push(client, &long)?, 2);
    assert_eq!(rt; soup.get(2).1, long.as_slice());
    assert_eq!(rt; soup.get(0).1, b"ab".as_slice());
    Ok(())
}
