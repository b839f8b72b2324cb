use peg_event::{Act, Fault, Op, Verdict};
use peg_history::*;
use peg_name::{ClientId, Content, Key, Value, Version};
use std::alloc::Global;
use std::test::Fail;

fn op_of<'a>(
    key: &[u8],
    act: Act,
    value: &'a [u8],
    issued: u64,
    answered: Option<u64>,
) -> Result<Op<'a>, Fail> {
    Ok(Op {
        client: ClientId(0),
        key: Key::read(key)?,
        act,
        content: Content::Present(Value::read(value)?),
        issued,
        answered,
    })
}

#[test]
fn orders_by_tag_and_act(rt: HostRuntime) -> Result<(), Fail> {
    let mut history = History::make(rt.alloc());
    assert!(rt; history.is_empty());
    history.reserve(7, 6)?;
    assert!(rt; history.spare() >= 7);
    assert!(rt; history.room() >= 6);
    let ops = [
        op_of(b"k", Act::Read, b"a", 2, Some(6))?,
        op_of(b"k", Act::Write, b"a", 3, Some(8))?,
        op_of(b"j", Act::Write, b"c", 4, Some(5))?,
        op_of(b"k", Act::Write, b"b", 7, None)?,
        op_of(b"k", Act::Read, b"b", 9, Some(10))?,
        op_of(b"k", Act::Write, b"d", 11, None)?,
        op_of(b"k", Act::Read, b"", 12, None)?,
    ];
    for op in &ops {
        assert!(rt; history.len() < 7);
        history.push(op)?;
    }
    assert!(rt; !history.is_empty());
    let tags = [1, 1, 5, 2, 2, 3, 0].map(|tag| Version(tag));
    assert_eq!(rt; history.len() as usize, tags.len());
    let orders = orders_of(rt.alloc(), &history, &tags)?;
    let wants = [(b"k", [1, 0, 3, 4].as_slice()), (b"j", [2].as_slice())];
    assert_eq!(rt; orders.len(), wants.len());
    for (order, (key, places)) in orders.iter().zip(wants) {
        assert_eq!(rt; order.key.bytes(), key.as_slice());
        assert_eq!(rt; order.ops.len() as usize, places.len());
        let one = order_of(rt.alloc(), &history, &tags, &order.key)?;
        assert_eq!(rt; one.ops.len(), order.ops.len());
        for (i, place) in places.iter().enumerate() {
            assert!(rt; (i as u32) < order.ops.len());
            assert_eq!(rt; order.ops.at(i as u32), *place);
            assert_eq!(rt; one.ops.at(i as u32), *place);
        }
    }
    Ok(())
}

#[test]
fn an_answer_gives_a_read_its_content(rt: HostRuntime) -> Result<(), Fail> {
    let mut history = History::make(rt.alloc());
    let given = Content::Present(Value::read(b"given")?);
    for act in [Act::Read, Act::Write] {
        let place = history.len();
        assert!(rt; place < 2);
        let op = op_of(b"k", act, b"held", 2, None)?;
        history.push(&op)?;
        history.reserve(0, 5)?;
        assert!(rt; history.op(place).answered.is_none());
        assert!(rt; history.op(place).issued < 3);
        history.answer(place, 3, &given);
        assert_eq!(rt; history.op(place).answered, Some(3));
        assert_eq!(rt; history.op(place).content == given, act == Act::Read);
    }
    Ok(())
}

fn order_with(alloc: Global, key: &[u8], places: &[u32]) -> Result<KeyOrder, Fail> {
    let mut ops = Ops::make(alloc);
    for place in places {
        if ops.len() < 100 {
            ops.push(*place)?;
        }
    }
    Ok(KeyOrder {
        key: Key::read(key)?,
        ops,
    })
}

#[test]
fn the_first_fault_is_said(rt: HostRuntime) -> Result<(), Fail> {
    let mut history = History::make(rt.alloc());
    let ops = [
        op_of(b"k", Act::Write, b"a", 2, Some(6))?,
        op_of(b"k", Act::Read, b"a", 3, Some(5))?,
        op_of(b"j", Act::Write, b"c", 4, Some(8))?,
        op_of(b"k", Act::Write, b"b", 7, None)?,
        op_of(b"k", Act::Read, b"b", 9, Some(10))?,
        op_of(b"k", Act::Read, b"", 11, None)?,
    ];
    for op in &ops {
        assert!(rt; history.len() < 6);
        history.push(op)?;
    }
    let wants = [
        ([0, 1, 3, 4].as_slice(), Verdict::Yes),
        ([0, 1, 9, 4].as_slice(), Verdict::No(Fault::Strange(9))),
        ([0, 2, 3, 4].as_slice(), Verdict::No(Fault::Strange(2))),
        ([0, 5, 3, 4].as_slice(), Verdict::No(Fault::Strange(5))),
        ([0, 1, 0, 4].as_slice(), Verdict::No(Fault::Twice(0))),
        ([1, 0, 3, 4].as_slice(), Verdict::No(Fault::Illegal(1))),
        ([0, 1, 4].as_slice(), Verdict::No(Fault::Illegal(4))),
        (
            [3, 4, 0, 1].as_slice(),
            Verdict::No(Fault::Late { first: 3, place: 0 }),
        ),
        ([0].as_slice(), Verdict::No(Fault::Missing(1))),
    ];
    for (places, want) in wants {
        let mut orders = Vec::new(rt.alloc());
        orders.push(order_with(rt.alloc(), b"k", places)?)?;
        orders.push(order_with(rt.alloc(), b"j", &[2])?)?;
        assert_eq!(rt; check(rt.alloc(), &history, &orders)?, want);
    }
    Ok(())
}
