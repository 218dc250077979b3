ghost use Rattle.std.specs.Prelude.{◌≡◌};
ghost use Rattle.vm_types.specs.Versions.{is_first, is_long, most_frames, most_lines, most_requests};

use crate::body::Body;
use crate::limits::{
    MOST_FRAMES, MOST_FRAMES_OF_ONE, MOST_LINES, MOST_LONG_LINES, MOST_LONG_REQUESTS, MOST_REQUESTS,
};
use crate::listed::Listed;
use crate::names::{Addr, BlockId, Proc, SecId};
use crate::service::Request;

/// The parameters of the pager, each named as in the trace.
#[derive(Clone, Copy, Debug, PartialEq, Eq)]
pub struct Params {
    /// Pages of a read cluster, 1 to `MOST_READ_CLUSTER`.
    pub pfc: u32,
    /// Modified pages above which the writer works, 0 to `MOST_MODIFIED`.
    pub hilimit: u32,
    /// Modified pages at which the writer stops, 0 to `MOST_MODIFIED`.
    pub lolimit: u32,
    /// Modified pages at which an eviction onto their list waits, 1 to `MOST_MODIFIED`.
    pub waitlimit: u32,
    /// Pages of a write cluster, 1 to `MOST_LIFTS`.
    pub wrtcluster: u32,
    /// Free frames below which the swapper works, 0 to `MOST_FREE`.
    pub freelim: u32,
    /// Free frames at which the swapper stops, 0 to `MOST_FREE`.
    pub freegoal: u32,
    /// References between two adjustments of a limit, 0 to `MOST_COUNTED`; 0 for none.
    pub awstime: u32,
    /// Faults above which a limit rises, 0 to `MOST_COUNTED`.
    pub pfrath: u32,
    /// Faults below which a limit falls, 0 to `MOST_COUNTED`.
    pub pfratl: u32,
    /// Pages by which a limit rises, 0 to `MOST_EXTENT`.
    pub wsinc: u32,
    /// Pages by which a limit falls, 0 to `MOST_EXTENT`.
    pub wsdec: u32,
    /// The least limit that an adjustment gives, 2 to `MOST_EXTENT`.
    pub awsmin: u32,
    /// Free frames above which a limit may pass the quota, 0 to `MOST_FREE`.
    pub borrowlim: u32,
}

/// What stands behind the pages of a section.
#[derive(Clone, Copy, Debug, PartialEq, Eq)]
pub enum SectionKind {
    /// A file, which its processes share.
    Shared,
    /// A file, of whose pages each process gets copies at its first reference.
    Crf,
    /// The page file; processes share it, and its pages are zeros at first.
    Paged,
}

/// A section: its name of 2 to 15 bytes, its kind, and the bytes of its pages, `PAGE_BYTES` for each;
/// those of one in the page file are zeros.
#[derive(Debug, Drop)]
pub struct Section {
    pub name: Listed<u8>,
    pub kind: SectionKind,
    pub bytes: Listed<u8>,
}

/// A process's working set limit, quota and extent, and the pages it may lock, all in pages.
#[derive(Clone, Copy, Debug, PartialEq, Eq)]
pub struct ProcSpec {
    pub limit: u32,
    pub quota: u32,
    pub extent: u32,
    pub locks: u32,
}

/// What is behind a mapped page: zeros, or a section's page.
#[derive(Clone, Copy, Debug, PartialEq, Eq)]
pub enum Origin {
    Zero,
    Section(SecId, u32),
}

/// A mapping of `pages` pages from the address `at` on, the first of which is `from`, the next
/// one the section's next page.
#[derive(Clone, Copy, Debug, PartialEq, Eq)]
pub struct Mapping {
    pub proc: Proc,
    pub at: Addr,
    pub pages: u32,
    pub from: Origin,
    pub prot: u8,
}

/// A block, and the numbers of its calls that fail, counted from 1.
#[derive(Debug, Drop)]
pub struct Fails {
    pub block: BlockId,
    pub calls: Listed<u32>,
}

/// A request of a process.
#[derive(Clone, Copy, Debug, PartialEq, Eq)]
pub struct Task {
    pub proc: Proc,
    pub request: Request,
}

/// The version of a trace's format: 1, 2, or the long form of 2.
#[derive(Clone, Copy, Debug, PartialEq, Eq)]
pub enum Version {
    /// At most `MOST_FRAMES_OF_ONE` frames; sections have files, and nothing is pinned.
    One,
    /// At most `MOST_FRAMES` frames; sections may be in the page file, and pages may be pinned.
    Two,
    /// As version 2, with more requests and lines.
    Long,
}

impl Version {
    /// Whether it is version 1, which has fewer frames, no sections in the page file, and no pinned pages.
    pub fn is_first(self) -> bool
        ensures { result ≡ is_first self }
    {
        match self {
            Version::One => true,
            Version::Two | Version::Long => false,
        }
    }

    /// Whether it is the long form.
    pub fn is_long(self) -> bool
        ensures { result ≡ is_long self }
    {
        match self {
            Version::One | Version::Two => false,
            Version::Long => true,
        }
    }

    /// The most page frames that a trace of it has.
    pub fn most_frames(self) -> u32
        ensures { result ≡ most_frames self }
    {
        if self.is_first() {
            MOST_FRAMES_OF_ONE
        } else {
            MOST_FRAMES
        }
    }

    /// The most requests that a trace of it has.
    pub fn most_requests(self) -> u32
        ensures { result ≡ most_requests self }
    {
        if self.is_long() {
            MOST_LONG_REQUESTS
        } else {
            MOST_REQUESTS
        }
    }

    /// The most lines that a trace of it has.
    pub fn most_lines(self) -> u32
        ensures { result ≡ most_lines self }
    {
        if self.is_long() {
            MOST_LONG_LINES
        } else {
            MOST_LINES
        }
    }
}

/// What a trace says: the machine, its sections, processes and mappings, and the requests in order.
#[derive(Debug, Drop)]
pub struct Config {
    pub version: Version,
    /// Page frames, 8 to as many as the version has.
    pub frames: u32,
    /// The bad ones, each once.
    pub bad: Listed<u32>,
    /// Blocks of the page file, 1 to `MOST_BLOCKS`.
    pub pagefile: u32,
    pub params: Params,
    /// At most `MOST_SECTIONS`, with at most `MOST_SECTION_PAGES` pages together.
    pub sections: Listed<Section>,
    /// 1 to `MOST_PROCESSES`.
    pub procs: Listed<ProcSpec>,
    pub maps: Listed<Mapping>,
    pub fails: Listed<Fails>,
    /// At most as many as the version has.
    pub body: Body,
}
