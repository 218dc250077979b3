//! How the table of a configuration is filled.

ghost use Rattle.std.specs.Prelude.{◌≡◌, ℕ, ◌+◌, ◌*◌, ◌<◌, ◌≤◌, All, length, find, if◌then◌else◌};
ghost use Rattle.vm_types.specs.Behind.{covers, origin_by};
ghost use Rattle.std.specs.Option.{option_map};
ghost use Rattle.vm_types.specs.PagePlaces.{item_at};
ghost use Rattle.section_table.specs.Laying.{IsLaid};
ghost use Rattle.vm_types.specs.Laying.{CanLay};

use page_rows::PageRows;
use vm_types::{Mapping, Origin, PAGE_BYTES, origin_after, page_place};

/// Puts behind each page of a mapping what the mapping says.
fn lay(origins: &mut PageRows<Origin>, mapping: &Mapping)
    requires { CanLay (length origins.old) mapping.now }
    ensures laid { IsLaid mapping.now (item_at origins.old) (item_at origins.new) }
    ensures places { length origins.new ≡ length origins.old }
{
    let first = mapping.at.0 / PAGE_BYTES;
    for k in 0..mapping.pages {
        let place = page_place(mapping.proc, first + k).unwrap();
        origins.set(place, Some(origin_after(mapping.from, k)));
    }
}

/// Puts behind each page what the first mapping that has it says, in a table that has nothing yet.
pub fn lay_all(origins: &mut PageRows<Origin>, maps: &[Mapping])
    requires empty { (p v : ℕ) → item_at origins.old p v ≡ None }
    requires can { All (CanLay (length origins.old)) maps.now }
    ensures laid { (p v : ℕ) → item_at origins.new p v ≡ option_map (origin_by v) (find (covers p v) maps.now) }
    ensures places { length origins.new ≡ length origins.old }
{
    // Backwards, so that the first mapping counts.
    let mut left = maps.len();
    while left > 0 {
        left -= 1;
        lay(origins, &maps[left]);
    }
}
