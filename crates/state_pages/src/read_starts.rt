ghost use Rattle.std.specs.Prelude.{◌≡◌};
ghost use Rattle.state_pages.specs.ReadStarts.{ChargesFault, CountsFault, MayChargeFault, MayCountFault, page_read};

use crate::reading::{charge_page, mapped_page};
use page_file::PageFile;
use section_table::Sections;
use state_parts::{ChargedPages, ProcessRow};
use vm_journal::Role;
use vm_types::{Config, PAGE_BYTES, Page};

/// The page that a read of this role brings in; none if its process has none there.
pub fn read_page(config: &Config, sections: &Sections, role: Role) -> Option<Page>
    ensures { result ≡ page_read config.now sections.now role }
{
    match role {
        Role::Fault(q, a) => mapped_page(config, sections, q, a.0 / PAGE_BYTES),
        Role::Near(page) => Some(page),
        Role::Come(q, a) => mapped_page(config, sections, q, a.0 / PAGE_BYTES),
    }
}

/// Counts one fault more of the process, if the read is for a fault.
pub fn count_fault(processes: &mut [ProcessRow], role: Role)
    requires { MayCountFault role processes.old }
    ensures { CountsFault role processes.old processes.new }
{
    if let Role::Fault(q, _) = role {
        let row = &mut processes[q.0 as usize];
        row.faults += 1;
    }
}

/// Charges the page, if the read is for a fault and the page isn't charged yet.
pub fn charge_fault(pages: &mut ChargedPages, file: &mut PageFile, role: Role, page: Page)
    requires { MayChargeFault role page pages.old file.old }
    ensures { ChargesFault role page pages.old pages.new file.old file.new }
{
    if let Role::Fault(..) = role {
        charge_page(pages, file, page);
    }
}
