use std::test::Fail;
use trace_words::{
    Access, BlockName, Cause, ServiceName, Words, block_name, cut, decimal, decimal_within,
    hexadecimal, is, is_name, letter, next_word, op_name, pairs, parted, protection, service_name,
    verb_of, words_of,
};
use vm_types::{Mode, Width};

// The protection codes 0 to 15 by their names; code 1 has none.
const CODES: &[u8] = b"NA - KW KR UW EW ERKW ER SW SREW SRKW SR URSW UREW URKW UR";

// No blocks.
const NO_BLOCKS: &[u8] = b"P:00 P: S:LIB S:L/1 X:b/1 Y:1 P1";

fn words_in(text: &[u8]) -> usize {
    match words_of(text) {
        Words::Zero => 0,
        Words::One(_) => 1,
        Words::Two(_, _) => 2,
        Words::Three(_, _, _) => 3,
        Words::Four(_, _, _, _) => 4,
        Words::Five(_, _, _, _, _) => 5,
        Words::Six(_, _, _, _, _, _) => 6,
        Words::More(_, _, _, _, _, _, _, _) => 7,
    }
}

#[test]
fn parts_a_line(rt: HostRuntime) {
    assert!(rt; words_in(b" \t ") == 0 && words_in(b"\tA  R1\t0 ") == 3);
    assert!(rt; words_in(b"a b c d e f") == 6 && words_in(b"a b c d e f g h") == 7);
    assert!(rt; is(b"END", b"END") && !is(b"END", b"end"));
    assert!(rt;
        cut(b"S:A/1", b':').is_some()
            && parted(b"a b", b'\n').is_none()
            && next_word(b" ").is_none()
    );
}

#[test]
fn reads_numbers(rt: HostRuntime) {
    assert_eq!(rt; decimal(b"4294967295"), Ok(0xffff_ffff));
    assert_eq!(rt; decimal(b"4294967296"), Err(Cause::OutOfRange));
    assert_eq!(rt; decimal(b"00000000007"), Err(Cause::BadNumber));
    assert_eq!(rt; decimal_within(1, 8, b"9"), Err(Cause::OutOfRange));
    assert_eq!(rt; hexadecimal(b"fFfF0a0A"), Ok(0xffff_0a0a));
    assert_eq!(rt; hexadecimal(b"123456789"), Err(Cause::BadNumber));
    assert_eq!(rt; hexadecimal(b"9g"), Err(Cause::BadNumber));
}

#[test]
fn reads_names(rt: HostRuntime) -> Result<(), Fail> {
    assert!(rt; is_name(b"LIB_2") && !is_name(b"_LIB"));
    assert_eq!(rt; letter(b"P"), Ok(15));
    let mut code = 0u8;
    for name in CODES.split(|b| *b == b' ') {
        let wanted = if code == 1 {
            Err(Cause::UnknownWord)
        } else {
            Ok(code)
        };
        assert_eq!(rt; protection(name), wanted);
        code = code.saturating_add(1);
    }
    assert_eq!(rt; code, 16);
    let op = op_name(b"SW2").ok_or("an operation")?;
    assert!(rt; op.mode == Mode::S && op.access == Access::Write(Width::Two));
    assert_eq!(rt; service_name(b"PURGWS"), Some(ServiceName::Purge));
    assert!(rt; verb_of(b"R0").is_none());
    let bytes = pairs(b"0aFF").ok().ok_or("bytes")?;
    assert_eq!(rt; bytes.as_slice(), [0x0a, 0xff].as_slice());
    assert!(rt; pairs(&[b'0'; 128]).is_ok() && pairs(&[b'0'; 130]).is_err());
    Ok(())
}

#[test]
fn reads_blocks(rt: HostRuntime) {
    assert!(rt; matches!(block_name(b"S:LIB/3"), Ok(BlockName::Section(_, 3))));
    assert!(rt; matches!(block_name(b"P:0"), Ok(BlockName::PageFile(0))));
    assert!(rt; matches!(block_name(b"X:B/12"), Ok(BlockName::Swap(1, 12))));
    assert_eq!(rt; block_name(b"P:99999999999").err(), Some(Cause::NoSuch));
    for word in NO_BLOCKS.split(|b| *b == b' ') {
        assert_eq!(rt; block_name(word).err(), Some(Cause::UnknownWord));
    }
}
