ghost use Rattle.std.specs.Prelude.{◌≡◌, ◌≤◌, Some, true, slice_get};
ghost use Rattle.vm_types.specs.Cluster.{ClusterLength};

/// How many pages are read together with a faulting page: `out` says of it and of the pages after it
/// which are out of memory, `pfc` is the page fault cluster and `free` the number of free frames. Looks
/// at no place past the cluster but one. Source: Kenah and Bate, "VAX/VMS Internals and Data
/// Structures", paging dynamics, clustered reads.
pub fn choose(out: &[bool], pfc: u32, free: u32) -> u32
    requires faulting { slice_get out.now 0 ≡ Some true }
    requires some { 1 ≤ pfc }
    requires room { 1 ≤ free }
    ensures { ClusterLength out.now pfc free result }
{
    let most = pfc.min((free - 1).max(1));
    let mut length = 0;
    while (length as usize) < out.len() && length < most && out[length as usize] {
        length += 1;
    }
    length
}
