ghost use Rattle.std.specs.Prelude.{◌≡◌, ◌<◌, ◌≤◌, ◌↔◌, ℕ, [], Some, length, slice_get, true, false, is_some, IfOk, IsTrue};
ghost use Rattle.vm_types.specs.declared.config.Task.{Task};
ghost use Rattle.pager_model.specs.Order.{requests_of};
ghost use Rattle.pager_model.specs.Spoken.{request_of};
ghost use Rattle.shadow_history.specs.Lefts.{AreLinked, AreOf, IsRequestTaken, left_of};

use crate::spoken::request_of;
use std::alloc::Global;
use std::marker::Model;
use vm_journal::What;
use vm_types::{Body, NoMemory, Request, Seat};

/// What each process still asks for, of the tasks of a body. Contracts see the body and, by process,
/// the place of its next task.
#[derive(Drop)]
pub(crate) struct Orders<'a> {
    body: &'a Body,
    next: Vec<usize>,
    after: Vec<usize>,
}

impl<'a> Model for Orders<'a> {
    ghost use Rattle.shadow_history.specs.Lefts.{ArePlaces, Left};

    ghost Value = { Left };

    ghost view = { λ o. record { body = o.body.now; next = o.next.items } };

    ghost invariant = { λ o. ArePlaces o.body.now o.next.items o.after.items };
}

impl<'a> Orders<'a> {
    /// All requests of the body, which are of so many processes, are left.
    ///
    /// # Errors
    /// `NoMemory` if out of memory.
    pub(crate) fn new(alloc: Global, body: &'a Body, procs: usize) -> Result<Orders<'a>, NoMemory>
        requires { AreOf body.now procs }
        ensures { IfOk result (λ o. (p : ℕ) → left_of o p ≡ requests_of p body.now) }
    {
        let mut next = vec![in alloc; body.len(); procs]?;
        let mut after = vec![in alloc; body.len(); body.len()]?;
        link(body, &mut next, &mut after);
        Ok(Orders { body, next, after })
    }

    /// The next request of a process (any number), if one is left.
    pub(crate) fn first(&self, p: Seat) -> Option<Request>
        ensures { result ≡ slice_get (left_of self.now p.0) 0 }
    {
        let p = p.0 as usize;
        if p < self.next.len() {
            let place = self.next[p];
            if place < self.body.len() {
                return Some(self.body.at(place).request);
            }
        }
        None
    }

    /// After an entry of a seat (any number): a process that it answers has one request fewer left, if
    /// it has any.
    pub(crate) fn add(&mut self, p: Seat, what: What)
        ensures spoken { is_some (request_of what) ≡ true → IsRequestTaken p.0 self.old self.new }
        ensures quiet { is_some (request_of what) ≡ false → self.new ≡ self.old }
    {
        if request_of(what).is_some() {
            self.take(p);
        }
    }

    /// A process (any number) has one request fewer left, if it has any.
    fn take(&mut self, p: Seat)
        ensures { IsRequestTaken p.0 self.old self.new }
    {
        let p = p.0 as usize;
        if p < self.next.len() {
            let place = self.next[p];
            if place < self.body.len() {
                self.next[p] = self.after[place];
            }
        }
    }

    /// Whether no request of any process is left.
    pub(crate) fn is_empty(&self) -> bool
        ensures { IsTrue result ↔ ((p : ℕ) → left_of self.now p ≡ []) }
    {
        are_past(&self.next, self.body.len())
    }
}

/// Links each task to the same process's next one, from the last task back.
fn link(body: &Body, next: &mut Vec<usize>, after: &mut Vec<usize>)
    requires tasks { AreOf body.now (length next.old.items) }
    requires none { AreLinked body.now (length body.now) next.old.items after.old.items }
    ensures linked { AreLinked body.now 0 next.new.items after.new.items }
    ensures count { length next.new.items ≡ length next.old.items }
{
    let mut t = body.len();
    while t > 0 {
        t -= 1;
        let p = process_at(body, t);
        after[t] = next[p];
        next[p] = t;
    }
}

/// The process of a task.
fn process_at(body: &Body, t: usize) -> usize
    requires { t < length body.now }
    ensures { (task : Task) → slice_get body.now t ≡ Some task → (task.proc).0 ≡ result }
{
    body.at(t).proc.0 as usize
}

/// Whether all of the places are past a body of so many tasks.
fn are_past(next: &[usize], tasks: usize) -> bool
    ensures { IsTrue result ↔ ((p i : ℕ) → slice_get next.now p ≡ Some i → tasks ≤ i) }
{
    for place in next {
        if *place < tasks {
            return false;
        }
    }
    true
}
