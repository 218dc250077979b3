//! What is read off an open pager.

ghost use Rattle.std.specs.Prelude.{◌≡◌, ◌<◌, true, false, drop, length, reverse};
ghost use Rattle.pager_policy.specs.Serial.{IsSerial};
ghost use Rattle.open_pager.specs.LastAnswer.{last_answer, numbered};

use crate::pager::OpenPager;
use disk_trait::Block;
use vm_journal::Entry;
use vm_state::State;
use vm_types::Proc;

/// The entries behind the first ones, of which there are so many; none if there are no more.
fn rest_of(entries: &[Entry], taken: u64) -> &[Entry]
    ensures { result.now ≡ drop taken entries.now }
{
    match entries.get(taken as usize..) {
        Some(rest) => rest,
        None => &[],
    }
}

/// The entry of a number, from 1; none if there is no number.
fn numbered(entries: &[Entry], number: Option<u64>) -> Option<Entry>
    ensures { result ≡ numbered entries.now number }
{
    match number {
        Some(n) => entries.get(n.saturating_sub(1) as usize).copied(),
        None => None,
    }
}

/// No reader allocates.
impl<B: Block> OpenPager<B> {
    /// A proof learns here that unless the pager has stopped its entries are the serial run of the requests so
    /// far. Nothing happens.
    pub fn serial_law(&self)
        ensures { self.now.stopped ≡ false → IsSerial self.now.history.config self.now.history.past }
    {
        let _ = self.state.spare();
    }

    /// The state, from which the report and the dump are read. The body of its configuration are the requests
    /// so far.
    pub fn state(&self) -> &State<B>
        ensures { result.now ≡ self.now.history }
    {
        &self.state
    }

    /// Whether memory ran out amid the moves of a request.
    pub fn stopped(&self) -> bool
        ensures { result ≡ self.now.stopped }
    {
        self.stopped
    }

    /// The entries that weren't taken yet, oldest first, unless the pager has stopped.
    pub fn new_entries(&self) -> &[Entry]
        ensures { self.now.stopped ≡ false → result.now ≡ drop self.now.taken (reverse self.now.history.past) }
    {
        rest_of(self.state.entries(), self.taken)
    }

    /// Takes the new entries: `new_entries` gives only later ones then.
    pub fn take_entries(&mut self)
        ensures { self.new ≡ record self.old { taken = length self.old.history.past } }
    {
        self.taken = self.state.entry_count();
    }

    /// The entry by which a process of the configuration was answered last, unless the pager has stopped; none
    /// if it wasn't answered.
    pub fn answer_to(&self, p: Proc) -> Option<Entry>
        ensures { self.now.stopped ≡ false → p.0 < length self.now.history.config.procs → result ≡ last_answer p.0 self.now.history.past }
    {
        if self.state.config().procs.items().len() <= p.0 as usize {
            return None;
        }
        numbered(self.state.entries(), self.state.spoken(p))
    }
}
