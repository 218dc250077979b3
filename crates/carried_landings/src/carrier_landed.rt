/// How the lifts of a carrier landed: whether each of them failed, which is so if there were none, and
/// whether the first one did.
#[derive(Clone, Copy, Debug, PartialEq, Eq)]
pub struct CarrierLanded {
    pub all_failed: bool,
    pub first_failed: bool,
}
