use vm_types::Origin;

/// What a page is mapped to: what is behind it, and its protection code.
#[derive(Clone, Copy, Debug)]
pub struct Behind {
    pub origin: Origin,
    pub prot: u8,
}
