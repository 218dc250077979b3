/// What a call with a message answers.
#[repr(C)]
#[derive(Drop)]
pub struct Told {
    /// The status.
    pub status: u8,
    /// The output's length, in bytes.
    pub output: usize,
    /// The message's length, in bytes.
    pub message: usize,
}
