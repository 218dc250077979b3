use crate::cleaning::Cleaning;
use crate::onward::Onward;
use crate::write::Write;
use shadow_history::Flight;

/// Where a log stands in the rundown.
#[derive(Debug, Drop)]
pub(crate) enum Standing {
    /// Between two moves.
    BetweenMoves(Cleaning),
    /// In a cluster whose next writes are these.
    InOuts(Vec<Write>, Onward),
    /// In a cluster whose flights land in this order, and whether each one that landed has failed.
    InLandings(Vec<Flight>, bool, Onward),
}
