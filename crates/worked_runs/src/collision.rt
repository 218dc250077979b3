//! A fault on a page that another process reads, from a block that fails.

/// Both processes refer to a page whose block's first read fails: the second process meets that read, the first
/// one's reference is refused, and the second reads the page again.
pub const COLLISION: &str = "VMTRACE 1\n\
FRAMES 8\n\
PAGEFILE 4\n\
SECTION LIB SHARED 1\n\
PROCESS A 2 2 2 0\n\
PROCESS B 2 2 2 0\n\
MAPSEC A 00000000 1 LIB 0 UR\n\
MAPSEC B 00000000 1 LIB 0 UR\n\
FAIL S:LIB/0 1\n\
BODY\n\
A R1 00000000\n\
B R1 00000000\n\
END\n";

/// What `serial` writes on `COLLISION`.
pub const COLLISION_TEXT: &str = "1 A IN F0 S:LIB/0 FAULT A/00000000\n\
2 B COLLIDE 00000000 F0 1\n\
3 A INFAIL F0 1 0 1\n\
4 A REUSE F0 LIB/0\n\
5 A DENIED R1 00000000 DISKFAULT\n\
6 B IN F0 S:LIB/0 FAULT B/00000000\n\
7 B INOK F0 6\n\
8 B DONE R1 00000000 00\n\
PFN AT 8\n\
FREE 7 MODIFIED 0 BAD 0 RELEASE 0 READERROR 0 WRITING 0 READING 0 ACTIVE 1\n\
FRAME 0 ACTIVE LIB/0 MODIFY 0 REFS 1 SHARES 1\n\
PAGEFILE 4 CHARGED 0 ASSIGNED 0\n\
PROCESS A RESIDENT COUNT 0 LIMIT 2\n\
PROCESS B RESIDENT COUNT 1 LIMIT 2\n\
9 MPW EVICT B 00000000 F0 RUNDOWN FREE\n\
STATUS 0\n";
