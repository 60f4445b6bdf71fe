use spk_nums::{
    Call, CapId, CoreNo, CoreSet, FrameArg, Grant, Grants, Make, Qualities, Setup, Translations,
    in_limits,
};

fn granted(cores: u8) -> Grants {
    let mut grants = Grants::empty();
    for _ in 0..cores {
        grants.add(Grant {
            budget: 500_000_000,
            sched: 63,
            quality: 16_777_215,
        });
    }
    grants
}

#[test]
fn setups_end_where_the_machine_does(rt: HostRuntime) {
    assert!(rt; Setup::new(8, 512, granted(8), (1 << 40) - 1, 65535).is_some());
    assert!(rt; Setup::new(1, 6, granted(1), 0, 1).is_some());
    assert!(rt; Setup::new(9, 512, granted(9), 0, 1).is_none());
    assert!(rt; Setup::new(2, 7, granted(2), 0, 1).is_none());
    assert!(rt; Setup::new(2, 32, granted(1), 0, 1).is_none());
    assert!(rt; Setup::new(2, 32, granted(2), 0, 0).is_none());
    assert!(rt; Setup::new(2, 32, granted(2), 1 << 40, 1).is_none());
}

#[test]
fn lists_end_at_their_room(rt: HostRuntime) {
    let mut grants = granted(8);
    assert!(rt;
        !grants.add(Grant {
            budget: 0,
            sched: 0,
            quality: 1
        })
    );
    assert_eq!(rt; grants.len(), 8);
    let mut list = Qualities::one(3, 9);
    assert!(rt; !list.add((3, 1)));
    assert!(rt; !list.add((64, 1)));
    assert!(rt; !list.add((4, 0)));
    assert!(rt; list.add((4, 1)));
    assert_eq!(rt; list.get(1), Some((4, 1)));
    assert_eq!(rt; list.get(2), None);
    assert_eq!(rt; Translations::empty().len(), 0);
}

#[test]
fn sets_of_cores_take_and_give_back(rt: HostRuntime) {
    let set = CoreSet::empty().with(CoreNo::new(0)).with(CoreNo::new(7));
    assert!(rt; set.has(CoreNo::new(7)));
    assert!(rt; !set.has(CoreNo::new(1)));
    assert!(rt; !set.without(CoreNo::new(7)).has(CoreNo::new(7)));
}

#[test]
fn calls_know_their_limits(rt: HostRuntime) {
    let id = CapId::new(0);
    let make = Call::Make {
        what: Make::Tcap {
            sched: 64,
            quality: 1,
        },
        range: id,
        frame: FrameArg::new(0),
        table: id,
        slot: id,
    };
    assert!(rt; !in_limits(&make));
    assert!(rt; in_limits(&Call::Tick { n: 1_000_000 }));
    assert!(rt; !in_limits(&Call::Tick { n: 1_000_001 }));
}
