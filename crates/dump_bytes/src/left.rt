/// How many bytes are left, from the first one with which no dump goes on; none if the bytes end
/// in the middle of one.
#[derive(Clone, Copy, Debug, PartialEq, Eq)]
pub(crate) struct Left(pub usize);
