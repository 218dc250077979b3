ghost use Rattle.std.specs.Prelude.{◌≡◌, ◌<◌, ◌==◌, [], ◌∷◌, ◌++◌, length, drop, slice_get, slice_set, replicate, IfOk, MatchOption, None, Some, if◌then◌else◌};
ghost use Rattle.page_lists.specs.Lists.{list_of, other_of, cells_of, without, IsOn, IsOnNone, AreTwoLists, IsNext};
ghost use Rattle.page_lists.specs.Links.{mark_of};

use crate::ends::Ends;
use crate::faults::NoMemory;
use crate::links::{append, cell_at, next_in, prepend, put, unlink};
use crate::list_name::ListName;
use std::alloc::{AllocError, Global};
use std::marker::Model;

/// The free and the modified page list of a memory: two lists of frame numbers without repeats,
/// with no frame on both. Each frame has two link cells, which are lent while it is on neither.
#[derive(Debug, Drop)]
pub struct Lists {
    forward: Vec<u32>,
    backward: Vec<u32>,
    marks: Vec<Option<ListName>>,
    free: Ends,
    modified: Ends,
}

impl Model for Lists {
    ghost use Rattle.std.specs.Prelude.{length};
    ghost use Rattle.page_lists.specs.Lists.{TwoLists};
    ghost use Rattle.page_lists.specs.Links.{items_of, all_cells, AreLinked};

    ghost Value = { TwoLists };

    ghost view = { λ s. record {
      frames = length s.forward.items;
      free = items_of s.forward.items s.free;
      modified = items_of s.forward.items s.modified;
      cells = all_cells s.forward.items s.backward.items s.marks.items;
    } };

    ghost invariant = { λ s.
        AreLinked s.forward.items s.backward.items s.marks.items s.free s.modified };
}

impl Lists {
    /// Two empty lists, for the frames below `frames`, with cells of zeros.
    ///
    /// # Errors
    /// `NoMemory` if memory runs out: the cells take eight bytes a frame, and the marks two.
    pub fn new(alloc: Global, frames: u32) -> Result<Lists, NoMemory>
        ensures frames { IfOk result (λ lists. lists.frames ≡ frames) }
        ensures free { IfOk result (λ lists. lists.free ≡ []) }
        ensures modified { IfOk result (λ lists. lists.modified ≡ []) }
        ensures cells { IfOk result (λ lists. lists.cells ≡ replicate frames (0, 0)) }
        ensures valid { IfOk result (λ lists. AreTwoLists lists) }
    {
        let forward = zeros(alloc, frames)?;
        let backward = zeros(alloc, frames)?;
        let marks = no_marks(alloc, frames)?;
        Ok(Lists {
            forward,
            backward,
            marks,
            free: EMPTY,
            modified: EMPTY,
        })
    }

    /// Puts the frame at the end of a list.
    pub fn push_tail(&mut self, l: ListName, f: u32)
        requires below { f < self.old.frames }
        requires on_none { IsOnNone self.old f }
        ensures list { list_of self.new l ≡ list_of self.old l ++ f ∷ [] }
        ensures other { list_of self.new (other_of l) ≡ list_of self.old (other_of l) }
        ensures frames { self.new.frames ≡ self.old.frames }
        ensures cells { self.new.cells ≡ slice_set self.old.cells f (0, 0) }
        ensures valid { AreTwoLists self.new }
    {
        self.marks[f as usize] = Some(l);
        match l {
            ListName::Free => append(&mut self.forward, &mut self.backward, &mut self.free, f),
            ListName::Modified => append(
                &mut self.forward,
                &mut self.backward,
                &mut self.modified,
                f,
            ),
        }
    }

    /// Puts the frame at the head of a list.
    pub fn push_head(&mut self, l: ListName, f: u32)
        requires below { f < self.old.frames }
        requires on_none { IsOnNone self.old f }
        ensures list { list_of self.new l ≡ f ∷ list_of self.old l }
        ensures other { list_of self.new (other_of l) ≡ list_of self.old (other_of l) }
        ensures frames { self.new.frames ≡ self.old.frames }
        ensures cells { self.new.cells ≡ slice_set self.old.cells f (0, 0) }
        ensures valid { AreTwoLists self.new }
    {
        self.marks[f as usize] = Some(l);
        match l {
            ListName::Free => prepend(&mut self.forward, &mut self.backward, &mut self.free, f),
            ListName::Modified => prepend(
                &mut self.forward,
                &mut self.backward,
                &mut self.modified,
                f,
            ),
        }
    }

    /// Takes the head off a list; `None` exactly if the list is empty. The frame's cells are then
    /// zeros.
    pub fn pop_head(&mut self, l: ListName) -> Option<u32>
        ensures head { result ≡ slice_get (list_of self.old l) 0 }
        ensures list { list_of self.new l ≡ drop 1 (list_of self.old l) }
        ensures other { list_of self.new (other_of l) ≡ list_of self.old (other_of l) }
        ensures frames { self.new.frames ≡ self.old.frames }
        ensures cells { self.new.cells ≡ self.old.cells }
        ensures valid { AreTwoLists self.new }
    {
        let f = self.head(l)?;
        self.remove(l, f);
        Some(f)
    }

    /// Takes the frame off a list that it is on; the order of the rest stays. The frame's cells are
    /// then zeros.
    pub fn remove(&mut self, l: ListName, f: u32)
        requires { IsOn self.old l f }
        ensures list { list_of self.new l ≡ without (list_of self.old l) f }
        ensures other { list_of self.new (other_of l) ≡ list_of self.old (other_of l) }
        ensures frames { self.new.frames ≡ self.old.frames }
        ensures cells { self.new.cells ≡ self.old.cells }
        ensures valid { AreTwoLists self.new }
    {
        self.marks[f as usize] = None;
        match l {
            ListName::Free => unlink(&mut self.forward, &mut self.backward, &mut self.free, f),
            ListName::Modified => unlink(
                &mut self.forward,
                &mut self.backward,
                &mut self.modified,
                f,
            ),
        }
    }

    /// How many frames are on a list.
    pub fn len(&self, l: ListName) -> u32
        ensures len { result ≡ length (list_of self.now l) }
        ensures valid { AreTwoLists self.now }
    {
        match l {
            ListName::Free => self.free.count,
            ListName::Modified => self.modified.count,
        }
    }

    /// The first frame of a list; `None` exactly if the list is empty.
    pub fn head(&self, l: ListName) -> Option<u32>
        ensures head { result ≡ slice_get (list_of self.now l) 0 }
        ensures valid { AreTwoLists self.now }
    {
        match l {
            ListName::Free => head_of(&self.free),
            ListName::Modified => head_of(&self.modified),
        }
    }

    /// The list that the frame is on, if any.
    pub fn on(&self, f: u32) -> Option<ListName>
        ensures on { MatchOption result (IsOnNone self.now f) (λ l. IsOn self.now l f) }
        ensures valid { AreTwoLists self.now }
    {
        mark_at(&self.marks, f)
    }

    /// The frame after `f` on the list that `f` is on; `None` exactly if `f` is the last there, or
    /// on neither list.
    pub fn next(&self, f: u32) -> Option<u32>
        ensures next { IsNext self.now f result }
        ensures valid { AreTwoLists self.now }
    {
        match mark_at(&self.marks, f) {
            Some(ListName::Free) => next_in(&self.forward, &self.free, f),
            Some(ListName::Modified) => next_in(&self.forward, &self.modified, f),
            None => None,
        }
    }

    /// The two cells of a frame on neither list.
    pub fn cells(&self, f: u32) -> (u32, u32)
        requires below { f < self.now.frames }
        requires on_none { IsOnNone self.now f }
        ensures cells { result ≡ cells_of self.now f }
        ensures valid { AreTwoLists self.now }
    {
        (cell_at(&self.forward, f), cell_at(&self.backward, f))
    }

    /// Writes the two cells of a frame on neither list. It keeps them until it comes onto a list.
    pub fn set_cells(&mut self, f: u32, c: (u32, u32))
        requires below { f < self.old.frames }
        requires on_none { IsOnNone self.old f }
        ensures cells { self.new.cells ≡ slice_set self.old.cells f c }
        ensures free { self.new.free ≡ self.old.free }
        ensures modified { self.new.modified ≡ self.old.modified }
        ensures frames { self.new.frames ≡ self.old.frames }
        ensures valid { AreTwoLists self.new }
    {
        put(&mut self.forward, f, c.0);
        put(&mut self.backward, f, c.1);
    }
}

/// The ends of an empty list.
const EMPTY: Ends = Ends {
    head: 0,
    tail: 0,
    count: 0,
};

/// So many zeros.
fn zeros(alloc: Global, n: u32) -> Result<Vec<u32>, AllocError>
    ensures { IfOk result (λ v. v.items ≡ replicate n 0) }
{
    vec![in alloc; 0; n as usize]
}

/// So many frames without a mark.
fn no_marks(alloc: Global, n: u32) -> Result<Vec<Option<ListName>>, AllocError>
    ensures { IfOk result (λ v. v.items ≡ replicate n None) }
{
    vec![in alloc; None; n as usize]
}

/// The first frame of the list with these ends.
fn head_of(ends: &Ends) -> Option<u32>
    ensures { result ≡ (if ends.now.count == 0 then None else Some ends.now.head) }
{
    if ends.count == 0 {
        None
    } else {
        Some(ends.head)
    }
}

/// The mark of a frame; none for a number past the frames.
fn mark_at(marks: &Vec<Option<ListName>>, f: u32) -> Option<ListName>
    ensures { result ≡ mark_of marks.now.items f }
{
    match marks.get(f as usize) {
        Some(mark) => *mark,
        None => None,
    }
}
