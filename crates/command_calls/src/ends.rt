/// The three ends of a call: what it reads from, what it writes to, and what makes its blocks.
#[derive(Drop)]
pub struct CallEnds<S, K, D> {
    /// The source of the input.
    pub source: S,
    /// The sink that takes the output.
    pub output: K,
    /// The depot that makes the blocks and takes them back.
    pub depot: D,
}
