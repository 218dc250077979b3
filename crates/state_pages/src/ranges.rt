ghost use Rattle.std.specs.Prelude.{◌≡◌, ◌<◌, ◌+◌, ◌*◌, ◌^◌, ◌≤◌, ℕ, Some, None, true};
ghost use Rattle.std.specs.Option.{option_map};
ghost use Rattle.vm_types.specs.WellFormed.{IsCode, IsRange};
ghost use Rattle.vm_types.specs.PagePlaces.{changed_at};
ghost use Rattle.page_tables.specs.PageTables.{IsMapped, pte_in};
ghost use Rattle.section_table.specs.SectionTable.{behind_of};
ghost use Rattle.pager_model.specs.FlatService.{in_range};
ghost use Rattle.state_fits.specs.Serving.{ranged, with_code};

use page_tables::{Look, Tables};
use pte_forms::{Place, Pte};
use section_table::Sections;
use vm_types::{Addr, Origin, PAGE_BYTES, Proc};

/// Gives the entries of so many mapped pages of the process from the address's page on (1 to 4096, in P0
/// or the end of P1) the protection code.
pub fn protect(tables: &mut Tables, p: Proc, at: Addr, pages: u32, prot: u8)
    requires range { IsRange at.0 pages }
    requires code { IsCode prot }
    requires mapped { (v : ℕ) → in_range at.0 pages v ≡ true → IsMapped tables.old p.0 v }
    ensures changed { (q w : ℕ) → pte_in tables.new q w ≡ ranged (option_map (with_code prot)) p.0 at.0 pages (pte_in tables.old) q w }
    ensures procs { tables.new.procs ≡ tables.old.procs }
{
    let first = at.0 / PAGE_BYTES;
    for n in 0..pages {
        set_code(tables, p, first + n, prot);
    }
}

/// Gives the entry of a mapped page the protection code.
fn set_code(tables: &mut Tables, p: Proc, vpn: u32, prot: u8)
    requires code { IsCode prot }
    requires mapped { IsMapped tables.old p.0 vpn }
    ensures changed { (q w : ℕ) → pte_in tables.new q w ≡ changed_at (pte_in tables.old) p.0 vpn (option_map (with_code prot) (pte_in tables.old p.0 vpn)) q w }
    ensures procs { tables.new.procs ≡ tables.old.procs }
{
    if let Look::Entry(pte) = tables.look(p, vpn) {
        tables.set(p, vpn, Pte { prot, ..pte });
    }
}

/// Maps so many pages of the process from the address's page on (1 to 4096, in P0 or the end of P1), of
/// which none is mapped, to zeros, with the protection code.
pub fn create_zeros(
    tables: &mut Tables,
    sections: &mut Sections,
    p: Proc,
    at: Addr,
    pages: u32,
    prot: u8,
)
    requires range { IsRange at.0 pages }
    requires code { IsCode prot }
    requires process { (p.0 < tables.old.procs) × (p.0 < sections.old.procs) }
    requires absent { (v : ℕ) → in_range at.0 pages v ≡ true → pte_in tables.old p.0 v ≡ None }
    requires free { (v : ℕ) → in_range at.0 pages v ≡ true → behind_of sections.old p.0 v ≡ None }
    ensures changed { (q w : ℕ) → pte_in tables.new q w ≡ ranged (λ old. Some (record { prot = prot; place = Place.DemandZero })) p.0 at.0 pages (pte_in tables.old) q w }
    ensures procs { tables.new.procs ≡ tables.old.procs }
    ensures behind { (q w : ℕ) → behind_of sections.new q w ≡ ranged (λ old. Some Origin.Zero) p.0 at.0 pages (behind_of sections.old) q w }
    ensures sections { (sections.new.procs ≡ sections.old.procs) × (sections.new.parts ≡ sections.old.parts) }
{
    let first = at.0 / PAGE_BYTES;
    for n in 0..pages {
        let vpn = first + n;
        tables.map(
            p,
            vpn,
            Pte {
                prot,
                place: Place::DemandZero,
            },
        );
        sections.create(p, vpn);
    }
}
