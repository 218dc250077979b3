use vm_types::Pfn;

/// What a page table entry says: the protection code of its page (below 16, and not 1, which is
/// reserved), and the place where the page is. Source: VAX Architecture Reference Manual, memory
/// management.
#[derive(Clone, Copy, Debug, PartialEq, Eq)]
pub struct Pte {
    pub prot: u8,
    pub place: Place,
}

/// Where the page of an entry is. Every number is below 2^21. Source: Kenah and Bate, "VAX/VMS
/// Internals and Data Structures", paging dynamics; the swap slot is this project's own.
#[derive(Clone, Copy, Debug, PartialEq, Eq)]
pub enum Place {
    /// In a frame, for the process itself; `modify` says that it was written.
    Valid { modify: bool, frame: Pfn },
    /// Nowhere yet: a page of zeros is made at the first touch.
    DemandZero,
    /// In a frame that is on a list, or in a transfer.
    Transition(Pfn),
    /// In a block of the page file, by the block's number.
    PageFile(u32),
    /// In the section that backs a copy on reference page, by the page's number among the pages of
    /// all sections.
    SectionIndex(u32),
    /// Where the global page says, by the page's number among the pages of all sections.
    GlobalIndex(u32),
    /// In a swap block of its process, by the slot's number.
    Swap(u32),
}

/// A word that stands for no page table entry.
#[derive(Clone, Copy, Debug, PartialEq, Eq)]
pub struct BadPte;
