use crate::cleaning::Cleaning;

/// Where the rundown goes on once a cluster's writes have landed: if all of them failed, and if not.
#[derive(Clone, Copy, Debug)]
pub(crate) struct Onward {
    pub(crate) failed: Cleaning,
    pub(crate) written: Cleaning,
}
