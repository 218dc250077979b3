ghost use Rattle.std.specs.Prelude.{◌≡◌};
ghost use Rattle.vm_types.specs.Kinds.{is_shared_kind};

use crate::config::SectionKind;

/// Whether the processes that map such a section have the same pages.
pub fn is_shared_kind(kind: SectionKind) -> bool
    ensures { result ≡ is_shared_kind kind }
{
    match kind {
        SectionKind::Shared | SectionKind::Paged => true,
        SectionKind::Crf => false,
    }
}
