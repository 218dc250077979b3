use page_pool::Pool;
use std::test::Fail;

/// A pool and its buffers may go to another thread.
fn is_send<T: Send>(_value: &T) {}

#[test]
fn buffers_are_apart(rt: HostRuntime) -> Result<(), Fail> {
    let mut pool = Pool::new(rt.alloc(), 5)?;
    is_send(&pool);
    let mut first = pool.take().ok_or("five are left")?;
    let mut second = pool.take().ok_or("four are left")?;
    let spare = pool.take_spare().ok_or("three are left")?;
    let mut third = pool.take_spare().ok_or("two are left")?.fill();
    let fourth = pool.take_spare().ok_or("one is left")?.fill();
    assert!(rt; pool.take_spare().is_none());
    is_send(&first);
    is_send(&spare);
    first.bytes_mut().fill(1);
    second.bytes_mut().fill(2);
    third.bytes_mut().fill(3);
    assert_eq!(rt; first.bytes(), [1; 512].as_slice());
    assert_eq!(rt; second.bytes(), [2; 512].as_slice());
    assert_eq!(rt; third.bytes(), [3; 512].as_slice());
    assert_eq!(rt; fourth.bytes(), [0; 512].as_slice());
    assert!(rt; pool.take().is_none());
    let filled = spare.fill();
    assert_eq!(rt; filled.bytes(), [0; 512].as_slice());
    pool.put(filled);
    let fifth = pool.take().ok_or("the filled one is back")?;
    assert_eq!(rt; first.bytes(), [1; 512].as_slice());
    pool.put(second);
    let mut again = pool.take().ok_or("one is back")?;
    again.zero();
    assert_eq!(rt; again.bytes(), [0; 512].as_slice());
    assert_eq!(rt; first.bytes(), [1; 512].as_slice());
    pool.put(again);
    let mut copy = pool.take_copy(&first).ok_or("one is back")?;
    assert_eq!(rt; copy.bytes(), [1; 512].as_slice());
    copy.zero();
    assert_eq!(rt; first.bytes(), [1; 512].as_slice());
    assert!(rt; pool.take_copy(&first).is_none());
    drop(pool);
    drop(fifth);
    assert_eq!(rt; third.bytes()[511], 3);
    Ok(())
}

/// All buffers of the greatest pool are apart, and a pool is given back.
#[test]
fn makes_the_greatest_pool(rt: HostRuntime) -> Result<(), Fail> {
    let mut full = Pool::new(rt.alloc(), 16_800)?;
    let mut out = Vec::with_capacity(rt.alloc(), 16_800)?;
    for number in 0..16_800u32 {
        let mut buf = full.take().ok_or("one is left")?;
        assert_eq!(rt; buf.bytes(), [0; 512].as_slice());
        buf.bytes_mut()[0] = (number & 255) as u8;
        buf.bytes_mut()[511] = (number >> 8) as u8;
        out.push(buf)?;
    }
    assert!(rt; full.take().is_none());
    for (number, buf) in out.iter().enumerate() {
        assert_eq!(rt; buf.bytes()[0], (number & 255) as u8);
        assert_eq!(rt; buf.bytes()[511], (number >> 8 & 255) as u8);
    }
    let mut pool = Pool::new(rt.alloc(), 2)?;
    let first = pool.take().ok_or("two are left")?;
    let second = pool.take().ok_or("one is left")?;
    pool.put(first);
    pool.put(second);
    pool.close();
    drop(Pool::new(rt.alloc(), 0)?);
    Ok(())
}
