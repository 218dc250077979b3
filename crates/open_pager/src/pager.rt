use disk_trait::Block;
use serial_moves::Control;
use std::marker::Model;
use vm_state::{Carrier, State};

/// A pager that is asked one request at a time. Between two calls it waits: what it made so far is the serial
/// run of the requests so far. Where memory runs out amid the moves of a request it stops, and
/// answers no more.
#[derive(Drop)]
pub struct OpenPager<B: Block> {
    pub(crate) state: State<B>,
    pub(crate) control: Control,
    pub(crate) carriers: Vec<Carrier<B>>,
    pub(crate) taken: u64,
    pub(crate) stopped: bool,
}

impl<B: Block> Model for OpenPager<B> {
    ghost use Rattle.open_pager.specs.Open.{IsKept, OpenView};

    ghost Value = { OpenView };

    ghost view = { λ p. record {
      history = p.state;
      control = p.control;
      taken = p.taken;
      stopped = p.stopped;
    } };

    ghost invariant = { λ p. IsKept p.state p.control p.carriers.items p.stopped };
}
