use crate::*;
use std::test::Fail;

// Five rounds of a choice among the servers 0 and 2, and its charge.
#[test]
fn rounds_choose_the_lightest(rt: HostRuntime) -> Result<(), Fail> {
    let rows: [([u32; 3], [u8; 5]); 2] = [
        ([1, 1, 1], [0, 2, 0, 2, 0]),
        ([2, 1, 1], [0, 2, 0, 0, 2]),
    ];
    let allowed = Holders::of_bits(0b101);
    for (weights, wanted) in rows {
        let mut loads = Loads::make(&weights);
        for server in wanted {
            assert_eq!(rt; loads.place_among(allowed), u32::from(server) / 2);
            let chosen = loads.choose(allowed);
            assert_eq!(rt; chosen, ServerId(server));
            loads.charge(chosen);
        }
        assert_eq!(rt; loads.load(ServerId(0)), 3);
        assert_eq!(rt; loads.load(ServerId(1)), 0);
        assert_eq!(rt; loads.load(ServerId(2)), 2);
    }
    Ok(())
}

#[test]
fn any_server_may_be_chosen(rt: HostRuntime) -> Result<(), Fail> {
    let mut loads = Loads::make(&[1, 2, 1]);
    for server in [0, 1, 2, 1, 0, 1] {
        let chosen = loads.choose_any();
        assert_eq!(rt; chosen, ServerId(server));
        loads.charge(chosen);
    }
    Ok(())
}
