ghost use Rattle.std.specs.Prelude.{◌≡◌};
ghost use Rattle.trace_words.specs.ServiceWords.{service_name};

use crate::split::is;

/// A memory management service, without its range.
#[derive(Clone, Copy, Debug, PartialEq, Eq)]
pub enum ServiceName {
    /// Create virtual address space.
    Create,
    /// Delete virtual address space.
    Delete,
    /// Set the protection of pages.
    Protect,
    /// Lock pages in the working set.
    Lock,
    /// Unlock pages of the working set.
    Unlock,
    /// Purge pages from the working set.
    Purge,
    /// Lock pages in memory.
    Pin,
    /// Unlock pages from memory.
    Unpin,
    /// Adjust the working set limit.
    Adjust,
}

/// The service of this name.
pub fn service_name(word: &[u8]) -> Option<ServiceName>
    ensures { result ≡ service_name word.now }
{
    if is(word, b"CRETVA") {
        Some(ServiceName::Create)
    } else if is(word, b"DELTVA") {
        Some(ServiceName::Delete)
    } else if is(word, b"SETPRT") {
        Some(ServiceName::Protect)
    } else if is(word, b"LKWSET") {
        Some(ServiceName::Lock)
    } else if is(word, b"ULWSET") {
        Some(ServiceName::Unlock)
    } else if is(word, b"PURGWS") {
        Some(ServiceName::Purge)
    } else if is(word, b"LCKPAG") {
        Some(ServiceName::Pin)
    } else if is(word, b"ULKPAG") {
        Some(ServiceName::Unpin)
    } else if is(word, b"ADJWSL") {
        Some(ServiceName::Adjust)
    } else {
        None
    }
}
