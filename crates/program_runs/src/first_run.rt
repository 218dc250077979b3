//! A first trace, and what `serial` writes on it.

/// A write and a read of a page that is touched first here, and a read of an address that no page is
/// mapped at.
pub const FIRST_RUN: &str = "VMTRACE 1\n\
FRAMES 8\n\
PAGEFILE 4\n\
PROCESS A 4 4 4 0\n\
MAPZERO A 00000000 4 UW\n\
BODY\n\
A W4 00000000 0000002A\n\
A R4 00000000\n\
A R1 00000800\n\
END\n";

/// The entry lines, the report and the status of its run.
pub const FIRST_RUN_TEXT: &str = "1 A ZERO 00000000 F0\n\
2 A DONE W4 00000000 0000002A\n\
3 A DONE R4 00000000 0000002A\n\
4 A DENIED R1 00000800 UNMAPPED\n\
PFN AT 4\n\
FREE 7 MODIFIED 0 BAD 0 RELEASE 0 READERROR 0 WRITING 0 READING 0 ACTIVE 1\n\
FRAME 0 ACTIVE A/00000000 MODIFY 1 REFS 1 SHARES 1\n\
PAGEFILE 4 CHARGED 1 ASSIGNED 0\n\
PROCESS A RESIDENT COUNT 1 LIMIT 4\n\
STATUS 0\n";
