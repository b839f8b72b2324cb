//! The outbox, and what is lent to packets.

use super::{TO_SERVER_WRITE, WRITE};
use peg_name::{ClientId, Content, Format, Node, Row};
use peg_packet::{Post, Rows, bytes_of, content_of, decode, is_in_range, key_of};
use std::test::Fail;

#[test]
fn an_outbox_holds_what_is_put_in(rt: HostRuntime) -> Result<(), Fail> {
    let mut post = Post::make(rt.alloc(), Format::One, 2)?;
    assert!(rt; post.is_empty());
    let Some((_, packet)) = decode(WRITE) else {
        assert!(rt; false);
        return Ok(());
    };
    assert!(rt; is_in_range(Format::One, &packet));
    post.put(Node::Controller, &packet);
    post.forward(Node::Client(ClientId(3)), TO_SERVER_WRITE);
    assert_eq!(rt; (post.len(), post.slots()), (2, 2));
    assert!(rt; matches!(post.format(), Format::One));
    let (to, bytes) = post.item(0);
    assert!(rt; to == Node::Controller && bytes == WRITE);
    let (to, bytes) = post.item(1);
    assert!(rt; to == Node::Client(ClientId(3)) && bytes == TO_SERVER_WRITE);
    post.clear();
    assert_eq!(rt; (post.len(), post.slots()), (0, 2));
    Ok(())
}

#[test]
fn rows_are_lent(rt: HostRuntime) {
    let key = key_of(b"k");
    let row = Row {
        key,
        count: 2,
        error: 1,
    };
    let mut out = [0; 588];
    let rows = Rows::write(&[row], &mut out);
    assert!(rt; rows.len() == 1 && !rows.is_empty());
    let found = rows.row(0);
    assert!(rt; found.key == key && found.count == 2 && found.error == 1);
}

#[test]
fn contents_are_lent(rt: HostRuntime) {
    let content = content_of(Format::One, Some(b"x"));
    assert!(rt; bytes_of(&content).is_some_and(|bytes| bytes == b"x".as_slice()));
    assert!(rt; bytes_of(&Content::Absent).is_none());
    assert!(rt; matches!(content_of(Format::Two, None), Content::Absent));
}
