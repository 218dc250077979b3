ghost use Rattle.std.specs.Prelude.{◌≡◌, ◌+◌, IfOk};

use vm_types::NoMemory;

/// One more.
///
/// # Errors
/// `NoMemory` if the count is full.
pub(crate) fn one_more(count: u32) -> Result<u32, NoMemory>
    ensures { IfOk result (λ n. n ≡ count + 1) }
{
    count.checked_add(1).ok_or(NoMemory)
}

/// One less.
///
/// # Errors
/// `NoMemory` if the count is 0.
pub(crate) fn one_less(count: u32) -> Result<u32, NoMemory>
    ensures { IfOk result (λ n. n + 1 ≡ count) }
{
    count.checked_sub(1).ok_or(NoMemory)
}

/// The length of a list with one item more.
///
/// # Errors
/// `NoMemory` if the count is full.
pub(crate) fn longer(len: usize) -> Result<usize, NoMemory>
    ensures { IfOk result (λ n. n ≡ len + 1) }
{
    len.checked_add(1).ok_or(NoMemory)
}

/// The length of a list with so many items less.
///
/// # Errors
/// `NoMemory` if there aren't so many.
pub(crate) fn shorter(len: usize, items: u32) -> Result<usize, NoMemory>
    ensures { IfOk result (λ n. n + items ≡ len) }
{
    len.checked_sub(items as usize).ok_or(NoMemory)
}
