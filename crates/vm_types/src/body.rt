ghost use Rattle.std.specs.Prelude.{◌≡◌, ◌<◌, [], ◌∷◌, ◌++◌, Some, length, slice_get, OnOk, OnErr};

use crate::config::Task;
use crate::faults::NoMemory;
use crate::short::{Short, short_of, task_of};
use std::alloc::Global;
use std::marker::Model;

/// The requests of a trace in order, sixteen bytes for each. Contracts see them as a list of tasks.
#[derive(Debug, Drop)]
pub struct Body {
    inner: Vec<Short>,
}

impl Model for Body {
    ghost use Rattle.std.specs.Prelude.{List, map};
    ghost use Rattle.vm_types.specs.Short.{task_of};
    ghost use Rattle.vm_types.specs.declared.config.Task.{Task};

    ghost Value = { List Task };

    ghost view = { λ b. map task_of b.inner.items };
}

impl Body {
    /// No requests. Takes no memory.
    pub fn new(alloc: Global) -> Body
        ensures { result ≡ [] }
    {
        Body {
            inner: Vec::new(alloc),
        }
    }

    /// Adds one at the end.
    ///
    /// # Errors
    /// `NoMemory` for want of memory; the requests are then as before.
    #[tactic(auto, using(crate::proofs::Bodies::one_more))]
    pub fn push(&mut self, task: Task) -> Result<(), NoMemory>
        ensures ok { OnOk result (self.new ≡ self.old ++ task ∷ []) }
        ensures err { OnErr result (self.new ≡ self.old) }
    {
        if self.inner.len() == self.inner.capacity() {
            self.inner.try_reserve(1)?;
        }
        self.inner.push_reserved(short_of(task));
        Ok(())
    }

    /// How many there are.
    #[tactic(auto, using(crate::proofs::Bodies::as_many))]
    pub fn len(&self) -> usize
        ensures { result ≡ length self.now }
    {
        self.inner.len()
    }

    /// The request at a place from 0; none behind the last.
    #[tactic(auto, using(crate::proofs::Bodies::one_at, crate::proofs::Bodies::none_at))]
    pub fn get(&self, i: usize) -> Option<Task>
        ensures { result ≡ slice_get self.now i }
    {
        match self.inner.get(i) {
            Some(short) => Some(task_of(*short)),
            None => None,
        }
    }

    /// The request at a place from 0, where there is one.
    #[tactic(auto, using(crate::proofs::Bodies::one_at, crate::proofs::Bodies::as_many))]
    pub fn at(&self, i: usize) -> Task
        requires { i < length self.now }
        ensures { slice_get self.now i ≡ Some result }
    {
        task_of(self.inner[i])
    }
}
