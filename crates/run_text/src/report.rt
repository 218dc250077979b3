use std::marker::Model;
use vm_types::{FrameState, Listed, Page, ProcStatus};

/// A frame of the report: its state, the page that it holds, the page's modify bit, and its counts
/// of references and of valid entries that share it.
#[derive(Clone, Copy, Debug, PartialEq, Eq)]
pub struct FrameRow {
    pub state: FrameState,
    pub page: Option<Page>,
    pub modify: bool,
    pub refs: u32,
    pub shares: u32,
}

/// A process of the report: where it stands with the swapper, how many pages its working set
/// holds, and its working set limit.
#[derive(Clone, Copy, Debug, PartialEq, Eq)]
pub struct ProcessRow {
    pub status: ProcStatus,
    pub count: u32,
    pub limit: u32,
}

/// What a report says.
#[derive(Debug, Drop)]
pub struct Report {
    /// How many entries were before it.
    pub at: u64,
    /// How many frames are in each of the eight states, in the order of the states' codes.
    pub states: Listed<u32>,
    /// The frames by number.
    pub frames: Listed<FrameRow>,
    /// Blocks of the page file.
    pub size: u32,
    /// Those that are charged.
    pub charged: u32,
    /// Those that are assigned to pages.
    pub assigned: u32,
    /// The processes by number, at most 16.
    pub processes: Listed<ProcessRow>,
}

impl Model for Report {
    ghost use Rattle.std.specs.Prelude.{map};
    ghost use Rattle.pager_model.specs.Report.{Report as ReportValue};
    ghost use Rattle.run_text.specs.Rows.{frame_view, process_view};

    ghost Value = { ReportValue };

    ghost view = { λ r. record {
      at = r.at;
      states = r.states;
      frames = map frame_view r.frames;
      size = r.size;
      charged = r.charged;
      assigned = r.assigned;
      processes = map process_view r.processes;
    } };
}
