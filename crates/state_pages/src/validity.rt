ghost use Rattle.std.specs.Prelude.{◌≡◌, ℕ, Some, false};
ghost use Rattle.vm_types.specs.PagePlaces.{changed_at};
ghost use Rattle.page_tables.specs.PageTables.{IsEntry, IsMapped, pte_in};
ghost use Rattle.pte_forms.specs.declared.pte.Pte.{Pte};

use crate::shown::entry_in;
use page_tables::Tables;
use pte_forms::{Place, Pte};
use vm_types::{Pfn, Proc};

/// The entry of a mapped page becomes valid for a frame. Its protection code stays.
#[inline(always)]
pub fn make_valid(tables: &mut Tables, p: Proc, vpn: u32, f: Pfn)
    requires mapped { IsMapped tables.old p.0 vpn }
    requires entry { (pte : Pte) → pte_in tables.old p.0 vpn ≡ Some pte → IsEntry (record { prot = pte.prot; place = Place.Valid false f }) }
    ensures changed { (pte : Pte) × (pte_in tables.old p.0 vpn ≡ Some pte)
        × ((q w : ℕ) → pte_in tables.new q w ≡ changed_at (pte_in tables.old) p.0 vpn (Some (record { prot = pte.prot; place = Place.Valid false f })) q w) }
    ensures procs { tables.new.procs ≡ tables.old.procs }
{
    let look = tables.look(p, vpn);
    let prot = entry_in(look).unwrap().prot;
    let place = Place::Valid {
        modify: false,
        frame: f,
    };
    tables.set(p, vpn, Pte { prot, place });
}
