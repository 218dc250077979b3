use crate::params::PARAMS;
use paging_study::{
    PageString, cuts_bound_faults, distinct_pages, dropped_places, least_faults,
    least_faults_has_one_choice, lru_faults, page_string, ring_faults,
};
use std::alloc::Global;
use std::test::Fail;
use vm_types::{
    Addr, Body, Config, Listed, MOST_LONG_REQUESTS, Mode, NoMemory, Op, Proc, Ref, Request,
    Service, Task, Version, Width,
};

/// A read of a byte.
fn read(proc: u32, at: u32) -> Task {
    Task {
        proc: Proc(proc),
        request: Request::Reference(Ref {
            mode: Mode::U,
            addr: Addr(at),
            op: Op::Read(Width::One),
        }),
    }
}

/// A configuration with a body and nothing else.
fn config(alloc: Global, tasks: &[Task]) -> Result<Config, NoMemory> {
    let mut body = Body::new(alloc);
    for task in tasks {
        body.push(*task)?;
    }
    Ok(Config {
        version: Version::One,
        frames: 8,
        bad: Listed::new(alloc),
        pagefile: 1,
        params: PARAMS,
        sections: Listed::new(alloc),
        procs: Listed::new(alloc),
        maps: Listed::new(alloc),
        fails: Listed::new(alloc),
        body,
    })
}

#[test]
fn lists_the_pages_of_one_process(rt: HostRuntime) -> Result<(), Fail> {
    let purge = Task {
        proc: Proc(0),
        request: Request::Service(Service::Purge {
            at: Addr(0),
            pages: 1,
        }),
    };
    let body = [read(0, 511), read(1, 0), purge, read(0, 0xffff_ffff)];
    let config = config(rt.alloc(), &body)?;
    let pages = page_string(rt.alloc(), &config, Proc(0))?;
    assert_eq!(rt; pages.as_slice(), [0, 0x7f_ffff].as_slice());
    assert!(rt; page_string(rt.alloc(), &config, Proc(2))?.is_empty());
    Ok(())
}

#[test]
fn counts_faults_with_two_and_three_frames(rt: HostRuntime) -> Result<(), Fail> {
    let pages = PageString::of(
        rt.alloc(),
        Vec::from_slice(rt.alloc(), &[0, 1, 2, 0, 1, 2])?,
    )?;
    assert_eq!(rt; ring_faults(rt.alloc(), &pages, 2)?, 6);
    assert_eq!(rt; ring_faults(rt.alloc(), &pages, 3)?, 3);
    let lru = lru_faults(rt.alloc(), &pages, 3)?;
    assert_eq!(rt; lru.as_slice(), [6, 6, 3].as_slice());
    let two = least_faults(rt.alloc(), &pages, 2)?;
    assert_eq!(rt; two.faults, 4);
    assert_eq!(rt;
        two.kept.as_slice(),
        [true, false, true, false, false, false].as_slice()
    );
    assert_eq!(rt; two.cuts.as_slice(), [3].as_slice());
    assert_eq!(rt; distinct_pages(&pages), 3);
    let kept = [true, false, true, false, false, false];
    let drops = dropped_places(rt.alloc(), &pages, &kept)?;
    assert_eq!(rt; drops.as_slice(), [2].as_slice());
    let three = least_faults(rt.alloc(), &pages, 3)?;
    assert_eq!(rt; three.faults, 3);
    assert_eq!(rt;
        three.kept.as_slice(),
        [true, true, true, false, false, false].as_slice()
    );
    assert!(rt; three.cuts.is_empty());
    Ok(())
}

#[test]
fn finds_what_trying_every_schedule_finds(rt: HostRuntime) -> Result<(), Fail> {
    let table: [(&[u32], u32, u32); 30] = [
        (&[2, 1, 0, 3, 3, 0], 1, 5),
        (&[1, 2, 1, 1, 0], 3, 3),
        (&[2, 3, 0, 3, 3, 0, 1], 3, 4),
        (&[0, 0, 0, 1, 1, 1, 1], 2, 2),
        (&[1, 0, 0, 0, 0, 0], 1, 2),
        (&[2, 3, 1, 2, 3, 1, 1, 3], 2, 4),
        (&[1, 0, 0, 2, 0], 4, 3),
        (&[0, 0, 0, 0, 1, 0, 2, 1, 2, 2, 1, 1], 4, 3),
        (&[0, 1, 1, 0, 0, 0, 0, 1, 1, 0, 1, 0], 2, 2),
        (&[2, 2, 2, 0], 2, 2),
        (&[1, 0, 1, 1, 0, 1], 2, 2),
        (&[0, 0, 0, 1, 0], 2, 2),
        (&[0, 3, 3, 0, 1, 1, 2, 3, 0, 2, 1, 2], 2, 6),
        (&[0, 1, 0, 1, 1, 2, 1, 1], 1, 6),
        (&[1, 0, 0, 0, 1, 0, 0, 1, 1, 0, 0], 1, 6),
        (&[2, 1, 2, 2], 2, 2),
        (&[3, 0, 1, 3, 3], 3, 3),
        (&[3, 0, 3, 2, 1, 1, 2, 3, 2, 3], 1, 9),
        (&[0, 0, 1, 0, 0, 1, 0], 3, 2),
        (&[2, 0, 0, 2, 1, 1, 2, 0, 0, 0, 1, 2], 3, 3),
        (&[1, 2, 2, 2, 1, 2, 2, 2, 2, 1, 2], 4, 2),
        (&[2, 1, 3, 1, 3], 3, 3),
        (&[1, 0, 2, 0, 1, 2], 3, 3),
        (&[1, 2, 0, 0, 0, 1, 0, 2, 2, 0], 3, 3),
        (&[1, 2, 0, 1, 2, 2], 3, 3),
        (&[0, 1, 0, 2, 0], 3, 3),
        (&[4, 0, 1, 2, 4, 4, 3, 1, 3, 3, 4], 4, 5),
        (&[0, 0, 1, 0, 0, 1, 1, 1, 0, 1, 2], 2, 3),
        (&[0, 1, 0, 1, 1, 1, 0, 1, 0, 0, 1, 1], 2, 2),
        (&[1, 0, 1, 0, 0, 0], 3, 2),
    ];
    for (pages, frames, faults) in table {
        if 1 <= frames && frames <= 1024 && pages.len() <= MOST_LONG_REQUESTS as usize {
            let pages = PageString::of(rt.alloc(), Vec::from_slice(rt.alloc(), pages)?)?;
            assert_eq!(rt; least_faults(rt.alloc(), &pages, frames)?.faults, faults);
        }
    }
    cuts_bound_faults();
    least_faults_has_one_choice();
    Ok(())
}

#[test]
fn takes_the_most_pages_and_frames(rt: HostRuntime) -> Result<(), Fail> {
    let mut pages = Vec::new(rt.alloc());
    for i in 0..300_000 {
        pages.push(i % 3)?;
    }
    if pages.len() <= MOST_LONG_REQUESTS as usize {
        let pages = PageString::of(rt.alloc(), pages)?;
        assert_eq!(rt; ring_faults(rt.alloc(), &pages, 1024)?, 3);
        assert_eq!(rt; lru_faults(rt.alloc(), &pages, 1024)?.last(), Some(&3));
        let least = least_faults(rt.alloc(), &pages, 1024)?;
        assert_eq!(rt; least.faults, 3);
        assert_eq!(rt; distinct_pages(&pages), 3);
        assert!(rt; dropped_places(rt.alloc(), &pages, &least.kept)?.is_empty());
    }
    let mut pages = Vec::new(rt.alloc());
    for i in 0..2050 {
        pages.push(i % 1025)?;
    }
    if pages.len() <= MOST_LONG_REQUESTS as usize {
        let pages = PageString::of(rt.alloc(), pages)?;
        assert_eq!(rt; ring_faults(rt.alloc(), &pages, 1024)?, 2050);
        assert_eq!(rt; lru_faults(rt.alloc(), &pages, 1024)?.last(), Some(&2050));
        assert_eq!(rt; least_faults(rt.alloc(), &pages, 1024)?.faults, 1026);
    }
    Ok(())
}
