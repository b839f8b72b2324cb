use crate::text::key_k;
use peg_event::{Act, Op};
use peg_name::{ClientId, Content, KeyFault, Value};
use peg_text::{Text, op_of, op_text};
use std::process::Abort;
use std::test::Fail;

fn spells(rt: &impl Abort, number: u32, op: Op<'_>, line: &[u8]) {
    let mut out = Text::make();
    let mut room = [0; 1024];
    op_text(number, &op, &mut out);
    assert_eq!(rt; out.bytes(), line);
    assert_eq!(rt; op_of(line, &mut room), Some((number, op)));
}

fn op_by(act: Act, content: Content<'_>, answered: Option<u64>) -> Result<Op<'_>, KeyFault> {
    Ok(Op {
        client: ClientId(1023),
        key: key_k()?,
        act,
        content,
        issued: 2,
        answered,
    })
}

#[test]
fn operations_are_printed_and_read(rt: HostRuntime) -> Result<(), Fail> {
    let content = Content::Present(Value::read(b"x")?);
    spells(
        &rt,
        0,
        op_by(Act::Read, Content::Absent, None)?,
        b"op 0 client 1023 read k issued 2 open",
    );
    spells(
        &rt,
        0,
        op_by(Act::Read, Content::Absent, Some(3))?,
        b"op 0 client 1023 read k issued 2 answered 3 -",
    );
    spells(
        &rt,
        0,
        op_by(Act::Read, content.again(), Some(3))?,
        b"op 0 client 1023 read k issued 2 answered 3 =x",
    );
    spells(
        &rt,
        4294967295,
        op_by(Act::Write, content.again(), None)?,
        b"op 4294967295 client 1023 write k =x issued 2 open",
    );
    spells(
        &rt,
        1,
        op_by(Act::Write, content, Some(3))?,
        b"op 1 client 1023 write k =x issued 2 answered 3",
    );
    spells(
        &rt,
        1,
        op_by(Act::Write, Content::Absent, None)?,
        b"op 1 client 1023 write k - issued 2 open",
    );
    Ok(())
}

#[test]
fn other_bytes_are_no_operation(rt: HostRuntime) {
    let mut room = [0; 1024];
    for line in [
        b"".as_slice(),
        b"op 4294967296 client 0 read k issued 2 open".as_slice(),
        b"op 0 client 1024 read k issued 2 open".as_slice(),
        b"op 0 client 0 read k issued 1 open".as_slice(),
        b"op 0 client 0 read k issued 2 answered 2 -".as_slice(),
        b"op 0 client 0 read k issued 2 answered 3".as_slice(),
        b"op 0 client 0 write k issued 2 open".as_slice(),
        b"op 0 client 0 write k =x issued 2 answered 3 -".as_slice(),
        b"op 0 client 0 delete k issued 2 open".as_slice(),
    ] {
        assert!(rt; op_of(line, &mut room).is_none());
    }
}
