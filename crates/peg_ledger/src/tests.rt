use crate::*;
use peg_event::{Act, ClientDid, Issue, Op, ServerDid};
use peg_name::{ClientId, Content, Key, Seq, Version};
use std::test::Fail;

#[test]
fn a_fence_goes_back_to_the_write_before_it(rt: HostRuntime) -> Result<(), Fail> {
    let (k, a) = (Key::read(b"k")?, Key::read(b"a")?);
    let mut fences = Fences::make(rt.alloc());
    fences.reserve()?;
    let first = ServerDid::Fenced {
        key: k,
        version: Version(5),
        held: Version(3),
    };
    fences.take_fence(&first)?;
    fences.reserve()?;
    let second = ServerDid::Fenced {
        key: k,
        version: Version(7),
        held: Version(5),
    };
    fences.take_fence(&second)?;
    assert_eq!(rt; fences.origin_of(&k, Version(5)), Version(3));
    assert_eq!(rt; fences.origin_of(&k, Version(7)), Version(3));
    assert_eq!(rt; fences.origin_of(&k, Version(6)), Version(6));
    assert_eq!(rt; fences.origin_of(&a, Version(7)), Version(7));
    Ok(())
}

#[test]
fn promotions_are_kept(rt: HostRuntime) -> Result<(), Fail> {
    let mut promotions = Promotions::make(rt.alloc());
    promotions.reserve()?;
    promotions.take_promotion(&Key::read(b"k")?, Some(Version(2)))?;
    Ok(())
}

#[test]
fn an_operation_begins_and_is_answered(rt: HostRuntime) -> Result<(), Fail> {
    let (client, seq) = (ClientId(1), Seq(1));
    let mut operations = Operations::make(rt.alloc());
    let fences = Fences::make(rt.alloc());
    let op = Op {
        client,
        key: Key::read(b"k")?,
        act: Act::Write,
        content: Content::Absent,
        issued: 2,
        answered: None,
    };
    operations.reserve(0)?;
    operations.take_issue(&op, &Issue::Sent { seq })?;
    operations.take_stamp(Some((client, seq, Version(1))));
    let did = ClientDid::Wrote {
        seq,
        version: Version(1),
    };
    operations.take_answer(&fences, client, 6, &did);
    assert_eq!(rt; operations.len(), 1);
    assert_eq!(rt; operations.history().op(0).answered, Some(6));
    assert_eq!(rt; operations.orders(rt.alloc())?.len(), 1);
    Ok(())
}
