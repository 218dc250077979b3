ghost use Rattle.std.specs.Prelude.{◌≡◌};
ghost use Rattle.std.specs.List.{list_any};
ghost use Rattle.state_pages.specs.ComeRoles.{comes};

use vm_journal::Role;
use vm_types::Proc;

/// Whether a read of this role brings back a page of the process.
fn comes(p: Proc, role: Option<Role>) -> bool
    ensures { result ≡ comes p.0 role }
{
    match role {
        Some(Role::Come(q, _)) => q.0 == p.0,
        _ => false,
    }
}

/// Whether one of the reads with these roles brings back a page of the process.
pub fn any_comes(roles: &[Option<Role>], p: Proc) -> bool
    ensures { result ≡ list_any (comes p.0) roles.now }
{
    roles.iter().any(|role| comes(p, *role))
}
