use crate::{Apply, FenceDid, Store, WriteDid};
use peg_name::{Content, Key, Value, Version};
use std::test::Fail;

#[test]
fn fences_judge_late_writes(rt: HostRuntime) -> Result<(), Fail> {
    let mut store = Store::make(rt.alloc());
    let key = Key::read(b"k")?;
    let x = Content::Present(Value::read(b"x")?);
    let v = Version;
    assert_eq!(rt; store.write(&key, v(3), &x)?, WriteDid::Applied);
    assert_eq!(rt;
        store.write(&key, v(2), &Content::Absent)?,
        WriteDid::Kept { held: v(3) }
    );
    assert_eq!(rt; store.fence(&key, v(5))?, FenceDid::Fenced { held: v(3) });
    assert_eq!(rt;
        store.write(&key, v(4), &x)?,
        WriteDid::Void { floor: v(5) }
    );
    assert_eq!(rt; store.fence(&key, v(9))?, FenceDid::Fenced { held: v(5) });
    assert_eq!(rt;
        store.write(&key, v(4), &x)?,
        WriteDid::Barred { old: v(5) }
    );
    assert_eq!(rt; store.read(&key), (v(9), x));
    Ok(())
}

#[test]
fn copies_come_and_go(rt: HostRuntime) -> Result<(), Fail> {
    let mut store = Store::make(rt.alloc());
    let key = Key::read(b"k")?;
    let x = Content::Present(Value::read(b"x")?);
    let v = Version;
    assert_eq!(rt; store.read(&key), (v(0), Content::Absent));
    assert_eq!(rt; store.fence(&key, v(1))?, FenceDid::Fenced { held: v(0) });
    assert_eq!(rt; store.apply(&key, v(1), &x)?, Apply::Kept { held: v(1) });
    assert_eq!(rt; store.apply(&key, v(2), &x)?, Apply::Applied);
    assert_eq!(rt; store.read(&key), (v(2), x));
    assert_eq!(rt; store.apply(&key, v(3), &Content::Absent)?, Apply::Applied);
    assert_eq!(rt; store.read(&key), (v(3), Content::Absent));
    Ok(())
}
