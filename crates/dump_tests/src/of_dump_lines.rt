use crate::one_page::{ONE_PAGE, changed, read};
use command_ends::Status;
use dump_lines::{recount, show};
use outside_io::MemorySink;
use std::alloc::Global;
use std::test::Fail;

/// The text of the dump of these bytes, with the status, if there is room for as many bytes.
fn shown(alloc: Global, bytes: Vec<u8>, room: u32) -> Result<(Vec<u8>, Status), Fail> {
    let dump = read(alloc, bytes, &[])??;
    let counts = recount(alloc, &dump)?;
    let mut sink = MemorySink::new(alloc, room, Vec::new(alloc), Vec::new(alloc))?;
    let status = show(&dump, counts.as_slice(), &mut sink);
    Ok((sink.taken().to_vec(alloc)?, status))
}

const WHOLE: &str = "DUMP 8 1
FRAME 0 ACTIVE A/00000000 MODIFY 1 REFS 1 SHARES 1
LIST FREE 7
ON F1
ON F2
ON F3
ON F4
ON F5
ON F6
ON F7
LIST MODIFIED 0
PROCESS A RESIDENT COUNT 1 LIMIT 4 HAND 1
SLOT 0 A/00000000
PAGEFILE 4 CHARGED 1 ASSIGNED 0
WRONG 0
STATUS 0
";

#[test]
fn a_dump_is_shown_line_by_line(rt: HostRuntime) -> Result<(), Fail> {
    let alloc = rt.alloc();
    let (text, status) = shown(alloc, ONE_PAGE.to_vec(alloc)?, 1000)?;
    assert_eq!(rt; status, Status(0));
    assert_eq!(rt; text.as_slice(), WHOLE.as_bytes());
    // With less room the text is cut, and the status is 4.
    let (text, status) = shown(alloc, ONE_PAGE.to_vec(alloc)?, 100)?;
    assert_eq!(rt; status, Status(4));
    assert_eq!(rt; Some(text.as_slice()), WHOLE.as_bytes().get(..100));
    Ok(())
}

/// Whether the line stands in the text, with a line before it.
fn has_line(alloc: Global, text: &[u8], line: &str) -> Result<bool, Fail> {
    let wanted = format!(in alloc; "\n{line}\n")?;
    Ok(
        text.windows(wanted.len())
            .any(|part| part == wanted.as_bytes()),
    )
}

#[test]
fn what_differs_from_its_recount_is_wrong(rt: HostRuntime) -> Result<(), Fail> {
    let alloc = rt.alloc();
    // The place of a byte and its new value, and lines of the text.
    let table: [(usize, u8, &[&str]); 14] = [
        (
            51,
            2,
            &[
                "FRAME 0 ACTIVE A/00000000 MODIFY 1 REFS 2 SHARES 1",
                "WRONG F0 REFS 2 RECOUNT 1\nWRONG 1",
            ],
        ),
        (
            55,
            3,
            &[
                "FRAME 0 ACTIVE A/00000000 MODIFY 1 REFS 1 SHARES 3",
                "WRONG F0 SHARES 3 RECOUNT 1\nWRONG 1",
            ],
        ),
        (52, 0xff, &["WRONG F0 SHARES 4278190081 RECOUNT 1\nWRONG 1"]),
        (56, 3, &["WRONG F1 FREE 0 RECOUNT 1\nWRONG 1"]),
        (
            56,
            1,
            &["WRONG F1 FREE 0 RECOUNT 1\nWRONG F1 MODIFIED 1 RECOUNT 0\nWRONG 2"],
        ),
        (
            199,
            2,
            &[
                "ON F2\nON F2",
                "WRONG F1 FREE 1 RECOUNT 0\nWRONG F2 FREE 1 RECOUNT 2\nWRONG 2",
            ],
        ),
        (
            36,
            0,
            &[
                "FRAME 0 FREE A/00000000 MODIFY 1 REFS 1 SHARES 1",
                "WRONG F0 FREE 1 RECOUNT 0\nWRONG 1",
            ],
        ),
        (36, 2, &["FRAME 0 BAD\nLIST FREE 7", "WRONG 0"]),
        (
            38,
            2,
            &["FRAME 0 ACTIVE #0/0 MODIFY 1 REFS 1 SHARES 1", "WRONG 0"],
        ),
        (240, 3, &["SLOT 0 A/00000000 LOCKED", "WRONG 0"]),
        (
            240,
            5,
            &[
                "SLOT 0 A/00000000 PINNED",
                "WRONG F0 REFS 1 RECOUNT 2\nWRONG 1",
            ],
        ),
        (
            240,
            7,
            &[
                "SLOT 0 A/00000000 LOCKED PINNED",
                "WRONG F0 REFS 1 RECOUNT 2\nWRONG 1",
            ],
        ),
        (247, 3, &["SLOT 0 A/00000600", "WRONG 0"]),
        (
            283,
            4,
            &[
                "WRONG F0 REFS 1 RECOUNT 0\nWRONG F0 SHARES 1 RECOUNT 0\nWRONG F4 REFS 0 RECOUNT 1\nWRONG F4 SHARES 0 RECOUNT 1\nWRONG 4",
            ],
        ),
    ];
    for (place, byte, lines) in table {
        let (text, status) = shown(alloc, changed(alloc, place, byte)?, 1000)?;
        assert_eq!(rt; status, Status(0));
        for line in lines {
            assert!(rt;
                has_line(alloc, text.as_slice(), line)?,
                "byte {place}: {line}"
            );
        }
    }
    Ok(())
}
