//! The mappings of a configuration, laid into the page tables.

ghost use Rattle.std.specs.Prelude.{◌≡◌, ℕ, ◌+◌, All, Some, None, find, if◌then◌else◌};
ghost use Rattle.std.specs.Option.{option_map};
ghost use Rattle.vm_types.specs.Behind.{covers};
ghost use Rattle.page_tables.specs.PageTables.{HasPage, IsEntry, pte_in};
ghost use Rattle.vm_types.specs.PagePlaces.{changed_at};
ghost use Rattle.pager_model.specs.Maps.{mapped_by};
ghost use Rattle.state_fits.specs.Opening.{first_pte};
ghost use Rattle.first_parts.specs.Laying.{CanLayMapping, CanPlace, first_place};

use page_tables::{Look, Tables};
use pte_forms::{Place, Pte};
use vm_types::{Config, Mapping, Origin, PAGE_BYTES, Proc, SectionKind, origin_after};

/// What the entry of a page shows that was never in a frame, by what is behind it.
fn place_of(config: &Config, firsts: &[u32], origin: Origin) -> Place
    requires { CanPlace config.now firsts.now origin }
    ensures { result ≡ first_place config.now origin }
{
    match origin {
        Origin::Zero => Place::DemandZero,
        Origin::Section(s, page) => {
            let number = firsts[s.0 as usize] + page;
            match config.sections.items()[s.0 as usize].kind {
                SectionKind::Shared | SectionKind::Paged => Place::GlobalIndex(number),
                SectionKind::Crf => Place::SectionIndex(number),
            }
        }
    }
}

/// Sets the entry of a page, mapped or not.
fn put(tables: &mut Tables, p: Proc, vpn: u32, pte: Pte)
    requires page { HasPage tables.old p.0 vpn }
    requires entry { IsEntry pte }
    ensures changed { (q w : ℕ) → pte_in tables.new q w ≡ changed_at (pte_in tables.old) p.0 vpn (Some pte) q w }
    ensures procs { tables.new.procs ≡ tables.old.procs }
{
    match tables.look(p, vpn) {
        Look::Absent => tables.map(p, vpn, pte),
        Look::Entry(_) => tables.set(p, vpn, pte),
    }
}

/// Maps the pages of a mapping.
fn lay(tables: &mut Tables, config: &Config, firsts: &[u32], mapping: &Mapping)
    requires { CanLayMapping config.now firsts.now tables.old.procs mapping.now }
    ensures laid { (p v : ℕ) → pte_in tables.new p v
        ≡ (if covers p v mapping.now then Some (first_pte config.now p v (mapped_by v mapping.now)) else pte_in tables.old p v) }
    ensures procs { tables.new.procs ≡ tables.old.procs }
{
    let first = mapping.at.0 / PAGE_BYTES;
    for k in 0..mapping.pages {
        let place = place_of(config, firsts, origin_after(mapping.from, k));
        let prot = mapping.prot;
        put(tables, mapping.proc, first + k, Pte { prot, place });
    }
}

/// Maps the pages of all mappings in tables that have nothing yet.
pub(crate) fn lay_all(tables: &mut Tables, config: &Config, firsts: &[u32])
    requires empty { (p v : ℕ) → pte_in tables.old p v ≡ None }
    requires can { All (CanLayMapping config.now firsts.now tables.old.procs) config.now.maps }
    ensures laid { (p v : ℕ) → pte_in tables.new p v
        ≡ option_map (λ m. first_pte config.now p v (mapped_by v m)) (find (covers p v) config.now.maps) }
    ensures procs { tables.new.procs ≡ tables.old.procs }
{
    // Backwards, so that the first mapping counts.
    let maps = config.maps.items();
    let mut left = maps.len();
    while left > 0 {
        left -= 1;
        lay(tables, config, firsts, &maps[left]);
    }
}
