use std::test::Fail;
use trace_maker::make_trace;
use vm_types::{Addr, Mode, Op, Proc, Ref, Request, Task, Width};

fn task(proc: u32, at: u32, op: Op) -> Task {
    Task {
        proc: Proc(proc),
        request: Request::Reference(Ref {
            mode: Mode::U,
            addr: Addr(at),
            op,
        }),
    }
}

// The numbers come from another reading of the generator's rule.
#[test]
fn makes_a_trace(rt: HostRuntime) -> Result<(), Fail> {
    let made = make_trace(rt.alloc(), 1, 6, 400)?;
    assert!(rt; made.frames == 608 && made.pagefile == 8192 && made.params.awstime == 100);
    assert!(rt; made.procs.items().len() == 6 && made.maps.items().len() == 24);
    let sections = made.sections.items();
    assert_eq!(rt; sections.len(), 2);
    let bytes = sections[1].bytes.items();
    assert_eq!(rt; bytes.len(), 32_768);
    assert!(rt; bytes[511] == 255 && bytes[512] == 1 && bytes[513] == 2 && bytes[32_767] == 62);
    let body = &made.body;
    assert_eq!(rt; body.len(), 400);
    let read = Op::Read(Width::Four);
    let first = [
        task(4, 17_204, read),
        task(4, 529_876, Op::Write(Width::Four, 2_301_061_604)),
        task(1, 45_668, read),
        task(3, 287_852, read),
    ];
    assert_eq!(rt; body.get(0), Some(first[0]));
    assert_eq!(rt; body.get(1), Some(first[1]));
    assert_eq!(rt; body.get(2), Some(first[2]));
    assert_eq!(rt; body.get(3), Some(first[3]));
    assert_eq!(rt; body.get(399), Some(task(1, 278_372, read)));
    // The greatest.
    let made = make_trace(rt.alloc(), u64::MAX, 16, 100_000)?;
    assert!(rt; made.frames == 1568 && made.body.len() == 100_000);
    Ok(())
}
