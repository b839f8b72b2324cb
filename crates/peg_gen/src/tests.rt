use super::*;
use peg_name::Value;
use std::test::Fail;

// The event was computed apart, by another program.
#[test]
fn the_fourteenth_event_of_7(rt: HostRuntime) -> Result<(), Fail> {
    let mut generator = Gen::make(7);
    let mut room = Room::make();
    for number in 1..14 {
        let _ = generator.next(number, 3, &mut room);
    }
    let want = Event::Write {
        client: ClientId(6),
        key: Key::read(b"k3")?,
        value: Value::read(b"v14")?,
    };
    assert_eq!(rt; generator.next(14, 3, &mut room), want);
    Ok(())
}
