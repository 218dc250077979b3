ghost use Rattle.std.specs.Prelude.{◌≡◌};
ghost use Rattle.log_check.specs.declared.check_fault.CheckFault.TheVariants as check_fault;

/// Why a log isn't judged.
#[derive(Clone, Copy, Debug, PartialEq, Eq)]
pub enum CheckFault {
    /// Memory ran out.
    NoMemory,
    /// A read failed; the source's count of failures says so.
    ReadFault,
    /// As many lines as a log may have are legal, and a byte follows.
    TooMany,
}

impl From<vm_types::NoMemory> for CheckFault {
    ghost from_gives = { λ _ e. e ≡ check_fault.NoMemory };

    fn from(_error: vm_types::NoMemory) -> CheckFault {
        CheckFault::NoMemory
    }
}
