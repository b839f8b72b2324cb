use crate::*;
use peg_name::{ClientId, Config, Seq, Version};
use std::test::Fail;

#[test]
fn a_write_is_stamped_once(rt: HostRuntime) -> Result<(), Fail> {
    let config = Config::make(1, 3, 2, 1, 1, 1, 5)?;
    let mut stamper = Stamper::make(rt.alloc(), &config)?;
    let client = ClientId(1);
    assert!(rt; usize::from(client.0) < 2);
    assert_eq!(rt; stamper.stamp(client, Seq(3)), Stamp::New(Version(5)));
    assert_eq!(rt; stamper.stamp(client, Seq(3)), Stamp::Same(Version(5)));
    assert_eq!(rt;
        stamper.stamp(client, Seq(2)),
        Stamp::Stale { last: Seq(3) }
    );
    assert_eq!(rt; stamper.stamp(ClientId(0), Seq(1)), Stamp::New(Version(6)));
    assert!(rt; stamper.void(client, Seq(3), Version(5)));
    assert!(rt; !stamper.void(client, Seq(3), Version(5)));
    assert_eq!(rt; stamper.stamp(client, Seq(3)), Stamp::New(Version(7)));
    assert_eq!(rt; stamper.row(client), (Seq(3), Version(7)));
    assert_eq!(rt; stamper.take_version(), Some(Version(8)));
    stamper.set_next(Version(18446744073709551615));
    assert_eq!(rt; stamper.take_version(), None);
    assert_eq!(rt; stamper.stamp(client, Seq(4)), Stamp::Exhausted);
    stamper.set_row(client, Seq(9), Version(0));
    assert_eq!(rt; stamper.row(client), (Seq(9), Version(0)));
    assert_eq!(rt; stamper.next(), Version(18446744073709551615));
    Ok(())
}
