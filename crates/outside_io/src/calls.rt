ghost use Rattle.std.specs.Prelude.{◌≡◌};
ghost use Rattle.outside_io.specs.Listed.{is_listed};

// Whether the call's number is in the list.
pub(crate) fn lists(numbers: &[u32], call: u64) -> bool
    ensures { result ≡ is_listed numbers.now call }
{
    numbers.iter().any(|number| u64::from(*number) == call)
}
