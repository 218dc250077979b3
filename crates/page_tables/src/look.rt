use pte_forms::Pte;

/// What a page table has at a page.
#[derive(Clone, Copy, Debug, PartialEq, Eq)]
pub enum Look {
    /// The page has no entry: it isn't mapped, or can't be.
    Absent,
    /// The page's entry.
    Entry(Pte),
}
