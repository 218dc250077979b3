ghost use Rattle.vm_types.specs.Configuration.{AreParams};

use std::test::Fail;
use vm_types::{Choice, Params, ProcSpec};
use working_set::{Ring, adjust};

#[test]
fn replaces_the_first_unlocked_page(rt: HostRuntime) -> Result<(), Fail> {
    let mut ring = Ring::new(rt.alloc(), 3)?;
    assert_eq!(rt; ring.choose(2), Choice::Empty(0));
    ring.place(0, 7, true);
    assert_eq!(rt; ring.choose(2), Choice::Empty(1));
    ring.place(1, 9, true);
    ring.lock(0);
    assert_eq!(rt; ring.choose(2), Choice::Victim(1));
    assert_eq!(rt; (ring.count(), ring.locked()), (2, 1));
    // Slots 1 and 2 are empty then, and the hand stands on 2.
    ring.clear(1, false);
    assert_eq!(rt; ring.choose(2), Choice::Empty(2));
    // The greatest ring.
    let mut ring = Ring::new(rt.alloc(), 1024)?;
    ring.place(1023, 4_194_303, true);
    ring.lock(1023);
    assert_eq!(rt;
        (ring.hand(), ring.slots(), ring.is_locked(1023)),
        (0, 1024, true)
    );
    ring.clear(1023, true);
    assert_eq!(rt; (ring.hand(), ring.at(1023)), (1023, None));
    Ok(())
}

/// Parameters: few faults lower a limit by 4, more than 2 raise it by 2, and up to 3 free frames are few.
fn parameters() -> Params
    ensures { AreParams result }
{
    Params {
        pfc: 4,
        hilimit: 128,
        lolimit: 32,
        waitlimit: 256,
        wrtcluster: 8,
        freelim: 0,
        freegoal: 0,
        awstime: 4,
        pfrath: 2,
        pfratl: 0,
        wsinc: 2,
        wsdec: 4,
        awsmin: 4,
        borrowlim: 3,
    }
}

#[test]
fn adjusts_limits(rt: HostRuntime) -> Result<(), Fail> {
    let params = parameters();
    let spec = ProcSpec {
        limit: 2,
        quota: 3,
        extent: 5,
        locks: 0,
    };
    assert_eq!(rt; adjust(&params, &spec, 2, 2, 5), 2);
    assert_eq!(rt; adjust(&params, &spec, 3, 2, 3), 3);
    assert_eq!(rt; adjust(&params, &spec, 3, 3, 4), 5);
    Ok(())
}
