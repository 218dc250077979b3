//! How the table of pages is filled and changed.

ghost use Rattle.std.specs.Prelude.{◌≡◌, ℕ, ◌+◌, ◌*◌, ◌<◌, ◌≤◌, All, length, find, if◌then◌else◌};
ghost use Rattle.std.specs.Option.{option_map};
ghost use Rattle.vm_types.specs.Behind.{covers};
ghost use Rattle.vm_types.specs.PagePlaces.{item_at};
ghost use Rattle.flat_model.specs.Behind.{IsLaid, IsChangedIn, behind_by, protected_by};
ghost use Rattle.vm_types.specs.Laying.{CanLay, CanChange};

use crate::behind::Behind;
use vm_types::{Addr, Mapping, PAGE_BYTES, Proc, origin_after, page_place};

/// Maps each page of a mapping to what the mapping says.
fn lay(pages: &mut [Option<Behind>], mapping: &Mapping)
    requires { CanLay (length pages.old) mapping.now }
    ensures { IsLaid mapping.now (item_at pages.old) (item_at pages.new) }
{
    let first = mapping.at.0 / PAGE_BYTES;
    for k in 0..mapping.pages {
        let place = page_place(mapping.proc, first + k).unwrap();
        pages[place] = Some(Behind {
            origin: origin_after(mapping.from, k),
            prot: mapping.prot,
        });
    }
}

/// Maps each page to what the first mapping that has it says, in a table that has nothing yet.
pub(crate) fn lay_all(pages: &mut [Option<Behind>], maps: &[Mapping])
    requires empty { (p v : ℕ) → item_at pages.old p v ≡ None }
    requires can { All (CanLay (length pages.old)) maps.now }
    ensures { (p v : ℕ) → item_at pages.new p v ≡ option_map (behind_by v) (find (covers p v) maps.now) }
{
    // Backwards, so that the first mapping counts.
    let mut left = maps.len();
    while left > 0 {
        left -= 1;
        lay(pages, &maps[left]);
    }
}

/// Maps each page of a range to this, or to nothing.
pub(crate) fn set_range(
    pages: &mut [Option<Behind>],
    p: Proc,
    at: Addr,
    count: u32,
    to: Option<Behind>,
)
    requires { CanChange (length pages.old) p.0 at.0 count }
    ensures { IsChangedIn (λ old. to) p.0 at.0 count (item_at pages.old) (item_at pages.new) }
{
    let first = at.0 / PAGE_BYTES;
    for k in 0..count {
        let place = page_place(p, first + k).unwrap();
        pages[place] = to;
    }
}

/// What a page is mapped to, with another protection code.
fn protected(old: Option<Behind>, prot: u8) -> Option<Behind>
    ensures { result ≡ option_map (protected_by prot) old }
{
    match old {
        None => None,
        Some(behind) => Some(Behind {
            origin: behind.origin,
            prot,
        }),
    }
}

/// Gives each mapped page of a range this protection code.
pub(crate) fn protect_range(pages: &mut [Option<Behind>], p: Proc, at: Addr, count: u32, prot: u8)
    requires { CanChange (length pages.old) p.0 at.0 count }
    ensures { IsChangedIn (option_map (protected_by prot)) p.0 at.0 count (item_at pages.old) (item_at pages.new) }
{
    let first = at.0 / PAGE_BYTES;
    for k in 0..count {
        let place = page_place(p, first + k).unwrap();
        pages[place] = protected(pages[place], prot);
    }
}
