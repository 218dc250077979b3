ghost use Rattle.std.specs.Prelude.{◌≡◌, slice_get};
ghost use Rattle.vm_types.specs.declared.config.Config.{Config as ConfigValue};
ghost use Rattle.pager_model.specs.Maps.{first_bytes, paged_of};
ghost use Rattle.flat_model.specs.Usable.{IsOrigin};
ghost use Rattle.pager_model.specs.OfConfig.{IsOrigin as IsOriginOf};

use vm_types::{Config, Origin, PAGE_BYTES, SecId, Section, SectionKind};

/// Whether a section's pages are in the page file; those of one that is not there aren't.
fn is_paged(sections: &[Section], s: SecId) -> bool
    ensures { result ≡ paged_of (slice_get sections.now s.0) }
{
    match sections.get(s.0 as usize) {
        None => false,
        Some(section) => match section.kind {
            SectionKind::Paged => true,
            SectionKind::Shared | SectionKind::Crf => false,
        },
    }
}

/// The 512 bytes that a page has before it is touched.
fn bytes_in(sections: &[Section], origin: Origin) -> [u8; 512]
    requires { IsOrigin sections.now origin }
    ensures { (config : ConfigValue) → sections.now ≡ config.sections → result ≡ first_bytes config origin }
{
    match origin {
        Origin::Zero => [0; 512],
        Origin::Section(s, page) => {
            if is_paged(sections, s) {
                return [0; 512];
            }
            let from = PAGE_BYTES as usize * page as usize;
            let mut bytes = [0; 512];
            bytes.copy_from_slice(
                &sections[s.0 as usize].bytes.items()[from..from + PAGE_BYTES as usize],
            );
            bytes
        }
    }
}

/// The 512 bytes that a page has before it is touched, by what is behind it.
pub(crate) fn first_bytes(config: &Config, origin: Origin) -> [u8; 512]
    requires { IsOriginOf config.now origin }
    ensures { result ≡ first_bytes config.now origin }
{
    bytes_in(config.sections.items(), origin)
}
