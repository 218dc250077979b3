/// How a step of a schedule went.
#[derive(Clone, Copy, Debug, PartialEq, Eq)]
pub enum Went {
    /// The call was made, and nothing kept it from its entries.
    Made,
    /// The call was made, and can't go on now.
    Waits,
    /// The seat may not make this call now: it isn't there, its transfers are open, or none is to be
    /// landed or refused; or what it is for isn't there.
    Barred,
}
