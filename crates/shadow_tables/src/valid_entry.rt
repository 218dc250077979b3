ghost use Rattle.std.specs.Prelude.{◌≡◌, ◌&&◌};
ghost use Rattle.pager_model.specs.Lookups.{is_entry};

use std::marker::Model;
use vm_types::{Pfn, Proc};

/// A valid page table entry: the process, the page number and the frame.
#[derive(Clone, Copy, Debug)]
pub struct ValidEntry {
    proc: u32,
    vpn: u32,
    frame: u32,
}

impl Model for ValidEntry {
    ghost use Rattle.pager_model.specs.Pager.{Valid};

    ghost Value = { Valid };

    ghost view = { λ e. record { proc = e.proc; vpn = e.vpn; frame = e.frame } };

    ghost inverse = { λ e. record { proc = e.proc; vpn = e.vpn; frame = e.frame } };
}

impl ValidEntry {
    /// The entry of a process for a page, with a frame.
    pub fn new(p: Proc, vpn: u32, f: Pfn) -> ValidEntry
        ensures { result ≡ record { proc = p.0; vpn = vpn; frame = f.0 } }
    {
        ValidEntry {
            proc: p.0,
            vpn,
            frame: f.0,
        }
    }

    /// The process.
    pub fn proc(self) -> Proc
        ensures { result.0 ≡ self.proc }
    {
        Proc(self.proc)
    }

    /// The page number.
    pub fn vpn(self) -> u32
        ensures { result ≡ self.vpn }
    {
        self.vpn
    }

    /// The frame.
    pub fn frame(self) -> Pfn
        ensures { result.0 ≡ self.frame }
    {
        Pfn(self.frame)
    }

    /// Whether it is the entry of a process for a page.
    pub fn is_of(self, p: Proc, vpn: u32) -> bool
        ensures { result ≡ is_entry p.0 vpn self }
    {
        self.proc == p.0 && self.vpn == vpn
    }
}
