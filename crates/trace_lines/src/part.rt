use crate::places::Place;
use vm_types::{Config, Params};

/// What the lines so far declare, and where the next one stands.
#[derive(Debug, Drop)]
pub struct Part {
    pub place: Place,
    pub config: Config,
    /// The parameters that a line has set, by their numbers.
    pub given: [bool; 14],
}

/// The parameters that no line sets.
pub const DEFAULTS: Params = Params {
    pfc: 4,
    hilimit: 128,
    lolimit: 32,
    waitlimit: 256,
    wrtcluster: 8,
    freelim: 0,
    freegoal: 0,
    awstime: 0,
    pfrath: 16,
    pfratl: 2,
    wsinc: 8,
    wsdec: 4,
    awsmin: 4,
    borrowlim: 16,
};
