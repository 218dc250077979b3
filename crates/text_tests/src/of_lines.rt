use arrayvec::ArrayVec;
use outside_io::{Line, Lines, MemorySource, Source};
use std::process::Abort;
use std::test::Fail;

/// The next line is this, and these are its bytes.
fn hands_out<S: Source>(
    rt: &impl Abort,
    lines: &mut Lines<'_, S>,
    line: Line,
    bytes: &[u8],
) -> Result<(), Fail> {
    let mut out = ArrayVec::new();
    out.push(b'x');
    assert_eq!(rt; lines.next(&mut out)?, line);
    assert_eq!(rt; out.as_slice(), bytes);
    Ok(())
}

#[test]
fn parts_a_text(rt: HostRuntime) -> Result<(), Fail> {
    let text = b"PFN AT 4\n\n\r\nend".to_vec(rt.alloc())?;
    let mut source = MemorySource::new(text, Vec::new(rt.alloc()));
    let mut lines = Lines::new(&mut source);
    let whole = Line::Text { ended: true };
    hands_out(&rt, &mut lines, whole, b"PFN AT 4")?;
    hands_out(&rt, &mut lines, whole, b"")?;
    hands_out(&rt, &mut lines, whole, b"\r")?;
    hands_out(&rt, &mut lines, Line::Text { ended: false }, b"end")?;
    hands_out(&rt, &mut lines, Line::End, b"")?;
    hands_out(&rt, &mut lines, Line::End, b"")
}

#[test]
fn cuts_a_long_line(rt: HostRuntime) -> Result<(), Fail> {
    let mut text = vec![in rt.alloc(); b'a'; 255]?;
    text.push(b'\n')?;
    for _ in 0..257 {
        text.push(b'b')?;
    }
    let mut source = MemorySource::new(text, Vec::new(rt.alloc()));
    let mut lines = Lines::new(&mut source);
    hands_out(&rt, &mut lines, Line::Text { ended: true }, &[b'a'; 255])?;
    hands_out(&rt, &mut lines, Line::Long, &[b'b'; 256])?;
    hands_out(&rt, &mut lines, Line::Text { ended: false }, b"b")
}

#[test]
fn a_failed_read_is_no_end(rt: HostRuntime) -> Result<(), Fail> {
    let text = b"one\ntwo\n".to_vec(rt.alloc())?;
    let fails = vec![in rt.alloc(); 1]?;
    let mut source = MemorySource::new(text, fails);
    let mut lines = Lines::new(&mut source);
    let mut out = ArrayVec::new();
    assert!(rt; lines.next(&mut out).is_err());
    hands_out(&rt, &mut lines, Line::Text { ended: true }, b"one")?;
    hands_out(&rt, &mut lines, Line::Text { ended: true }, b"two")?;
    hands_out(&rt, &mut lines, Line::End, b"")
}
