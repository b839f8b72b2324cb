use crate::Index;
use peg_name::{ClientId, Format, Node};
use peg_pool::Soup;
use std::test::Fail;

#[test]
fn the_first_of_equal_packets_is_found(rt: HostRuntime) -> Result<(), Fail> {
    let (client, other) = (Node::Client(ClientId(3)), Node::Client(ClientId(4)));
    let mut soup = Soup::make(rt.alloc(), Format::One);
    soup.push(other, b"ab")?;
    soup.push(client, b"ab")?;
    soup.push(client, b"")?;
    soup.push(client, b"ab")?;
    let mut index = Index::make(rt.alloc())?;
    index.reserve(1)?;
    assert_eq!(rt; index.len(), 0);
    index.add(&soup)?;
    index.catch_up(&soup)?;
    assert_eq!(rt; index.find(&soup, &client, b"ab"), Some(1));
    assert_eq!(rt; index.find(&soup, &other, b"ab"), Some(0));
    assert_eq!(rt; index.find(&soup, &client, b""), Some(2));
    assert_eq!(rt; index.find(&soup, &other, b""), None);
    assert_eq!(rt; index.find(&soup, &Node::Controller, b"ab"), None);
    Ok(())
}
