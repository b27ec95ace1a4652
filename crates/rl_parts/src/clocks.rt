//! Clocks: which times are reached.
use cf_outside::{Clock, ListClock, StepClock};
use std::test::Fail;

fn reached<C: Clock>(clock: &mut C) -> [u64; 3] {
    [clock.reach(5), clock.reach(45), clock.reach(50)]
}

#[test]
fn clocks(rt: HostRuntime) -> Result<(), Fail> {
    let alloc = rt.alloc();
    let mut late = ListClock::new(vec![in alloc; 37, 5]?);
    let mut later = ListClock::new(vec![in alloc; 5, 44, 99, 60]?);
    for (case, times, wanted) in [
        (
            "no time before the due one, and each given time once",
            reached(&mut late),
            [37, 45, 50],
        ),
        ("late at the end", reached(&mut later), [5, 45, 99]),
        ("never late", reached(&mut StepClock), [5, 45, 50]),
    ] {
        assert_eq!(rt; times, wanted, "{case}");
    }
    Ok(())
}
