ghost use Rattle.std.specs.Prelude.{◌≡◌, ◌↔◌, IsTrue};
ghost use Rattle.pager_model.specs.Spoken.{request_of};

use vm_journal::What;
use vm_types::Request;

/// The request that an entry answers, if it answers one.
pub(crate) fn request_of(what: What) -> Option<Request>
    ensures { result ≡ request_of what }
{
    match what {
        What::Done { r, .. } => Some(Request::Reference(r)),
        What::Denied { r, .. } => Some(Request::Reference(r)),
        What::Served { s, .. } => Some(Request::Service(s)),
        _ => None,
    }
}

/// Whether they are the same request.
pub(crate) fn is_same(one: Request, other: Request) -> bool
    ensures { IsTrue result ↔ (one ≡ other) }
{
    one == other
}
