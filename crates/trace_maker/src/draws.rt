ghost use Rattle.std.specs.Prelude.{◌≡◌, ◌/◌, ◌<◌, ◌≤◌, ◌^◌, [], ◌∷◌, ◌++◌, OnOk};
ghost use Rattle.trace_maker.specs.Draws.{next_state, after_six, task_from, task_at, region_of, near_pages, op_of};

use vm_types::{Addr, Body, Mode, NoMemory, Op, PAGE_BYTES, Proc, Ref, Request, Task, Width};

/// The states of the generator.
#[derive(Clone, Copy, Debug)]
pub(crate) struct Draws {
    pub state: u64,
}

impl Draws {
    // The next draw.
    fn draw(&mut self) -> u32
        ensures state { self.new.state ≡ next_state self.old.state }
        ensures value { result ≡ next_state self.old.state / 2 ^ 32 }
    {
        self.state = self
            .state
            .wrapping_mul(6_364_136_223_846_793_005)
            .wrapping_add(1_442_695_040_888_963_407);
        (self.state / 0x1_0000_0000) as u32
    }

    /// Adds the next reference, which takes six draws, at the end.
    ///
    /// # Errors
    /// `NoMemory` if out of memory.
    pub(crate) fn add(&mut self, procs: u32, body: &mut Body) -> Result<(), NoMemory>
        requires { 1 ≤ procs }
        ensures state { self.new.state ≡ after_six self.old.state }
        ensures added { OnOk result (body.new ≡ body.old ++ task_from self.old.state procs ∷ []) }
    {
        let proc = self.draw() % procs;
        let region = region_of(self.draw() % 16);
        let d3 = self.draw();
        let page = (d3 / 256) % near_pages(region, d3);
        let byte = 4 * (self.draw() % 128);
        let kind = self.draw() % 4;
        let at = region.first + PAGE_BYTES * page + byte;
        add_kind(body, proc, at, kind, self.draw())
    }
}

/// A region of pages that each process maps.
#[derive(Clone, Copy, Debug)]
pub(crate) struct Region {
    pub first: u32,
    pub pages: u32,
}

fn region_of(n: u32) -> Region
    ensures value { result ≡ region_of n }
    ensures some { 32 ≤ result.pages }
    ensures few { result.pages ≤ 256 }
    ensures low { result.first < 2 ^ 31 }
{
    if n < 8 {
        Region {
            first: 0,
            pages: 256,
        }
    } else if n < 12 {
        Region {
            first: 0x4_0000,
            pages: 256,
        }
    } else if n < 14 {
        Region {
            first: 0x8_0000,
            pages: 64,
        }
    } else {
        Region {
            first: 0x7fff_c000,
            pages: 32,
        }
    }
}

// The pages that a reference may go to: a quarter of the region's, or one time in four all.
fn near_pages(region: Region, d: u32) -> u32
    requires some { 32 ≤ region.pages }
    requires few { region.pages ≤ 256 }
    ensures value { result ≡ near_pages region d }
    ensures some { 8 ≤ result }
    ensures few { result ≤ 256 }
{
    if d % 4 == 0 {
        region.pages
    } else {
        region.pages / 4
    }
}

/// A reference in user mode.
#[inline(always)]
fn task_at(p: u32, at: u32, op: Op) -> Task
    ensures { result ≡ task_at p at op }
{
    Task {
        proc: Proc(p),
        request: Request::Reference(Ref {
            mode: Mode::U,
            addr: Addr(at),
            op,
        }),
    }
}

/// Adds a reference of this kind. Each kind is pushed by itself, so that what is kept of it is made at once.
///
/// # Errors
/// `NoMemory` if out of memory.
fn add_kind(body: &mut Body, p: u32, at: u32, kind: u32, value: u32) -> Result<(), NoMemory>
    ensures { OnOk result (body.new ≡ body.old ++ task_at p at (op_of kind value) ∷ []) }
{
    if kind < 2 {
        body.push(task_at(p, at, Op::Read(Width::Four)))
    } else if kind < 3 {
        body.push(task_at(p, at, Op::Write(Width::Four, value)))
    } else {
        body.push(task_at(p, at, Op::Add(value)))
    }
}
