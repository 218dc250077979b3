use vm_types::ProcStatus;
use working_set::Ring;

/// What is kept of a process: its status, its working set list, the limit of that in pages, the
/// references and faults since the limit was last adjusted, and the read that its last collision
/// named, by the number of the entry that began it. Source: Kenah and Bate, "VAX/VMS Internals and Data Structures", the
/// process header.
#[derive(Drop)]
pub struct ProcessRow {
    pub status: ProcStatus,
    pub ring: Ring,
    pub limit: u32,
    pub references: u64,
    pub faults: u64,
    pub collided: Option<u64>,
}
