ghost use Rattle.std.specs.Prelude.{◌≡◌, ◌+◌, ◌<◌, ◌^◌, [], IfOk, IfSome, OnOk, is_none, length};
ghost use Rattle.vm_types.specs.Configuration.{IsWellFormed};
ghost use Rattle.vm_journal.specs.HasLine.{HasLine};
ghost use Rattle.log_reasons.specs.LineReasons.{IsEntryRefused};
ghost use Rattle.shadow_pager.specs.Shown.{shown};
ghost use Rattle.log_check.specs.Follows.{Follows};

use crate::changes::change;
use crate::replies::other_reply;
use crate::step::{fails, flat_is_followed};
use log_reasons::LineReason;
use shadow_flat::PageBytes;
use shadow_history::ShadowHistory;
use shadow_pager::ShadowPager;
use std::alloc::Global;
use vm_journal::Entry;
use vm_types::{Config, NoMemory};

/// What stands for the entries of a log so far: what its rows ask of them, the pager's state after
/// them, and the bytes of pages in the flat machine after them.
#[derive(Drop)]
pub(crate) struct Followed<'a> {
    pub(crate) past: ShadowHistory<'a>,
    pub(crate) pager: ShadowPager,
    pub(crate) bytes: PageBytes,
}

impl<'a> Followed<'a> {
    ghost use Rattle.log_check.specs.Followed.{IsAdded, IsEntered, IsFollowed, MayStep};

    /// No entries.
    ///
    /// # Errors
    /// `NoMemory` if out of memory.
    pub(crate) fn new(alloc: Global, config: &'a Config) -> Result<Followed<'a>, NoMemory>
        requires { IsWellFormed config.now }
        ensures followed { IfOk result IsFollowed }
        ensures past { IfOk result (λ f. f.past ≡ record { config = config.now; past = [] }) }
    {
        let past = ShadowHistory::new(alloc, config)?;
        let pager = ShadowPager::new(alloc, config)?;
        let bytes = PageBytes::new(alloc, config)?;
        Ok(Followed { past, pager, bytes })
    }

    /// Goes on with a legal entry; the bytes of pages stay as they are.
    fn add(&mut self, e: Entry) -> Result<(), NoMemory>
        requires follows { Follows self.old.past.config self.old.past.past (shown self.old.pager) }
        requires legal { MayStep self.old e }
        requires few { length self.old.past.past + 1 < 2 ^ 48 }
        ensures { OnOk result (IsAdded self.old e self.new) }
    {
        change(&mut self.pager, &self.past, e.seat, e.what)?;
        self.past.add(e)?;
        Ok(())
    }

    /// Goes on with an entry that has a line, if it is a legal next one, keeps the order of its process's requests and
    /// shows the flat machine's reply if it is a DONE; else it says why it isn't, and this is not to be used
    /// again.
    ///
    /// # Errors
    /// `NoMemory` if out of memory; this is then not to be used again.
    pub(crate) fn enter(&mut self, e: Entry) -> Result<Option<LineReason>, NoMemory>
        requires line { HasLine (length self.old.past.config.procs) self.old.past.config.sections e }
        requires followed { IsFollowed self.old }
        requires few { length self.old.past.past + 1 < 2 ^ 48 }
        ensures entered { IfOk result (λ o. IsEntered self.old e self.new (is_none o)) }
        ensures refused { IfOk result (λ o. IfSome o (IsEntryRefused self.old.past.config self.old.past.past e)) }
    {
        if let Some(reason) = fails(&self.past, &self.pager, e) {
            return Ok(Some(LineReason::NotLegal(reason)));
        }
        if !self.past.keeps_order(e) {
            return Ok(Some(LineReason::OutOfOrder));
        }
        flat_is_followed(&self.past, &self.pager);
        if let Some(right) = other_reply(&mut self.bytes, self.past.config(), &self.pager, e)? {
            return Ok(Some(LineReason::WrongReply(right)));
        }
        self.add(e)?;
        Ok(None)
    }
}
