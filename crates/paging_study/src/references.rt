ghost use Rattle.std.specs.Prelude.{◌≡◌, [], ◌∷◌, ◌++◌, IfOk, OnOk};
ghost use Rattle.paging_study.specs.PageString.{page_of_task, page_string};

use std::alloc::Global;
use vm_types::{Config, NoMemory, PAGE_BYTES, Proc, Request, Task};

/// The pages that the process's references in the body are to, in order, refused ones too: their
/// addresses divided by 512. A process that is not declared has none. Looks at each request once.
///
/// # Errors
/// `NoMemory` if memory runs out.
#[tactic(auto, using(crate::proofs::PageStrings::pages_more, crate::proofs::PageStrings::all_pages))]
pub fn page_string(alloc: Global, config: &Config, process: Proc) -> Result<Vec<u32>, NoMemory>
    ensures { IfOk result (λ pages. pages.items ≡ page_string process.0 config.now.body) }
{
    let mut pages = Vec::new(alloc);
    for i in 0..config.body.len() {
        add_page(&mut pages, config.body.at(i), process)?;
    }
    Ok(pages)
}

/// Adds the page of a request, if it is a reference of the process.
#[tactic(auto, using(crate::proofs::PageStrings::page_here, crate::proofs::PageStrings::page_none))]
fn add_page(pages: &mut Vec<u32>, task: Task, process: Proc) -> Result<(), NoMemory>
    ensures { OnOk result (pages.new.items ≡ pages.old.items ++ page_string process.0 (task ∷ [])) }
{
    if let Some(page) = page_of(&task, process) {
        pages.push(page)?;
    }
    Ok(())
}

/// The page of a request, if it is a reference of the process.
fn page_of(task: &Task, process: Proc) -> Option<u32>
    ensures { result ≡ page_of_task process.0 task.now }
{
    if task.proc.0 != process.0 {
        return None;
    }
    match task.request {
        Request::Reference(reference) => Some(reference.addr.0 / PAGE_BYTES),
        Request::Service(_) => None,
    }
}
