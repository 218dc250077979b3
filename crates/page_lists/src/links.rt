ghost use Rattle.std.specs.Prelude.{◌≡◌, ◌<◌, ◌==◌, [], ◌∷◌, ◌++◌, length, false, None, Some, slice_index, slice_set, if◌then◌else◌};
ghost use Rattle.page_lists.specs.Lists.{count_of, without};
ghost use Rattle.page_lists.specs.Links.{items_of, IsLinked, KeepsOthers, CanJoin, HasJoined};

use crate::ends::Ends;

/// Links a frame that is on no list after the last one.
pub(crate) fn append(forward: &mut Vec<u32>, backward: &mut Vec<u32>, ends: &mut Ends, f: u32)
    requires { CanJoin forward.old.items backward.old.items ends.old f }
    ensures { HasJoined forward.old.items backward.old.items forward.new.items backward.new.items
        (items_of forward.old.items ends.old ++ f ∷ []) ends.new }
{
    let Ends { head, tail, count } = ends;
    link_past(forward, backward, tail, head, *count == 0, f);
    *count += 1;
}

/// Links a frame that is on no list before the first one.
pub(crate) fn prepend(forward: &mut Vec<u32>, backward: &mut Vec<u32>, ends: &mut Ends, f: u32)
    requires { CanJoin forward.old.items backward.old.items ends.old f }
    ensures { HasJoined forward.old.items backward.old.items forward.new.items backward.new.items
        (f ∷ items_of forward.old.items ends.old) ends.new }
{
    let Ends { head, tail, count } = ends;
    link_past(backward, forward, head, tail, *count == 0, f);
    *count += 1;
}

/// Links a frame past the frame at one end of a list, and makes it that end. In an empty list it is the
/// other end too. The links lead to the frame, and the links back from it.
fn link_past(
    links: &mut Vec<u32>,
    back: &mut Vec<u32>,
    end: &mut u32,
    other: &mut u32,
    is_empty: bool,
    f: u32,
)
    requires last { is_empty ≡ false → end.old < length links.old.items }
    requires below { f < length back.old.items }
    ensures links { links.new.items
        ≡ (if is_empty then links.old.items else slice_set links.old.items end.old f) }
    ensures back { back.new.items ≡ slice_set back.old.items f end.old }
    ensures end { end.new ≡ f }
    ensures other { other.new ≡ (if is_empty then f else other.old) }
{
    let last = *end;
    relink(links, other, is_empty, last, f);
    put(back, f, last);
    *end = f;
}

/// Takes a frame out of its list, and clears its cells.
pub(crate) fn unlink(forward: &mut Vec<u32>, backward: &mut Vec<u32>, ends: &mut Ends, f: u32)
    requires cells { length backward.old.items ≡ length forward.old.items }
    requires linked { let items = items_of forward.old.items ends.old in
        IsLinked forward.old.items backward.old.items items ends.old }
    requires there { count_of (items_of forward.old.items ends.old) f ≡ 1 }
    ensures items { items_of forward.new.items ends.new
        ≡ without (items_of forward.old.items ends.old) f }
    ensures linked { let items = items_of forward.new.items ends.new in
        IsLinked forward.new.items backward.new.items items ends.new }
    ensures others { let items = items_of forward.old.items ends.old in
        KeepsOthers items forward.old.items backward.old.items forward.new.items backward.new.items }
    ensures first { slice_index forward.new.items f ≡ 0 }
    ensures second { slice_index backward.new.items f ≡ 0 }
    ensures count { length forward.new.items ≡ length forward.old.items }
    ensures same_count { length backward.new.items ≡ length backward.old.items }
{
    let next = cell_at(forward, f);
    let previous = cell_at(backward, f);
    let is_head = ends.head == f;
    let is_tail = ends.tail == f;
    relink(forward, &mut ends.head, is_head, previous, next);
    relink(backward, &mut ends.tail, is_tail, next, previous);
    put(forward, f, 0);
    put(backward, f, 0);
    ends.count -= 1;
}

/// The frame after `f`, which is on the list with these ends; `None` if it is the last.
pub(crate) fn next_in(forward: &Vec<u32>, ends: &Ends, f: u32) -> Option<u32>
    requires { f < length forward.now.items }
    ensures { result
        ≡ (if ends.now.tail == f then None else Some (slice_index forward.now.items f)) }
{
    if ends.tail == f {
        None
    } else {
        Some(cell_at(forward, f))
    }
}

/// Writes a link: at the list's end, or else into the cell of a frame.
fn relink(cells: &mut Vec<u32>, end: &mut u32, at_end: bool, frame: u32, link: u32)
    requires { at_end ≡ false → frame < length cells.old.items }
    ensures cells { cells.new.items
        ≡ (if at_end then cells.old.items else slice_set cells.old.items frame link) }
    ensures end { end.new ≡ (if at_end then link else end.old) }
{
    if at_end {
        *end = link;
    } else {
        put(cells, frame, link);
    }
}

/// The cell of a frame.
pub(crate) fn cell_at(cells: &Vec<u32>, f: u32) -> u32
    requires { f < length cells.now.items }
    ensures { result ≡ slice_index cells.now.items f }
{
    cells[f as usize]
}

/// Writes the cell of a frame.
pub(crate) fn put(cells: &mut Vec<u32>, f: u32, value: u32)
    requires { f < length cells.old.items }
    ensures { cells.new.items ≡ slice_set cells.old.items f value }
{
    cells[f as usize] = value;
}
