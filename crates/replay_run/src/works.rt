ghost use Rattle.std.specs.Prelude.{◌≡◌, ℕ, [], ◌∷◌, ◌++◌, IfOk, OnOk, Some, length, slice_get};
ghost use Rattle.pager_model.specs.Order.{requests_of};

use std::alloc::Global;
use vm_types::{Body, NoMemory, Request, Task};

/// Adds the request of a task, if it is the process's.
#[tactic(auto, using(crate::proofs::TaskRequests::asks_here, crate::proofs::TaskRequests::asks_none))]
fn add_request(requests: &mut Vec<Request>, task: Task, k: u32) -> Result<(), NoMemory>
    ensures { OnOk result (requests.new.items ≡ requests.old.items ++ requests_of k (task ∷ [])) }
{
    if task.proc.0 != k {
        return Ok(());
    }
    requests.push(task.request)?;
    Ok(())
}

/// The requests of a process in a body, in their order; none of other seats.
///
/// # Errors
/// `NoMemory` if memory ran out.
#[tactic(auto, using(crate::proofs::TaskRequests::requests_more))]
fn work_of(alloc: Global, body: &Body, k: u32) -> Result<Vec<Request>, NoMemory>
    ensures { IfOk result (λ v. v.items ≡ requests_of k body.now) }
{
    let mut requests = Vec::new(alloc);
    for i in 0..body.len() {
        let task = body.at(i);
        add_request(&mut requests, task, k)?;
    }
    Ok(requests)
}

/// The requests of each of so many seats in a body.
///
/// # Errors
/// `NoMemory` if memory ran out.
pub(crate) fn all_works(alloc: Global, body: &Body, n: u32) -> Result<Vec<Vec<Request>>, NoMemory>
    ensures count { IfOk result (λ works. length works.items ≡ n) }
    ensures each { IfOk result (λ works. (k : ℕ) (work : _) → slice_get works.items k ≡ Some work → work.items ≡ requests_of k body.now) }
{
    let mut works = Vec::with_capacity(alloc, n as usize)?;
    for k in 0..n {
        works.push_reserved(work_of(alloc, body, k)?);
    }
    Ok(works)
}
