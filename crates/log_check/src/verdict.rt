use log_reasons::LineReason;

/// What is said of a log.
#[derive(Debug, Drop)]
pub enum Verdict {
    /// It is legal, with so many entries.
    Legal(u32),
    /// The line of this number, from 1, is the first that isn't legal, and this is why. Of a log that ends early
    /// it is the line after its last.
    Fault(u32, LineReason),
}
