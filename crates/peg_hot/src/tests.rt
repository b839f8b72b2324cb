use crate::*;
use peg_name::Key;
use std::test::Fail;

#[test]
fn a_key_takes_over_the_least_row(rt: HostRuntime) -> Result<(), Fail> {
    let (k, a, c) = (Key::read(b"k")?, Key::read(b"a")?, Key::read(b"c")?);
    let mut counts = Counts::of(rt.alloc(), 2, &[k, k, k, a, c])?;
    assert_eq!(rt; counts.total(), 5);
    assert_eq!(rt; counts.len(), 2);
    let (first, second) = (counts.row(0), counts.row(1));
    assert_eq!(rt; (first.key, first.count, first.error), (k, 3, 0));
    assert_eq!(rt; (second.key, second.count, second.error), (c, 2, 1));
    counts.clear();
    assert!(rt; counts.is_empty());
    counts.see(&a);
    assert_eq!(rt; (counts.total(), counts.len()), (1, 1));
    Ok(())
}
