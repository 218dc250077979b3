ghost use Rattle.std.specs.Prelude.{◌≡◌, ◌<◌};
ghost use Rattle.trace_words.specs.ParamWords.{writer_param, other_param, param_of, least, most, number_of, with_param};

use crate::cause::Cause;
use crate::split::is;
use vm_types::{
    MOST_COUNTED, MOST_EXTENT, MOST_FREE, MOST_LIFTS, MOST_MODIFIED, MOST_READ_CLUSTER, Params,
};

/// A parameter of the pager.
#[derive(Clone, Copy, Debug, PartialEq, Eq)]
pub enum Param {
    /// PFC, 1 to `MOST_READ_CLUSTER`.
    Pfc,
    /// HILIMIT, 0 to `MOST_MODIFIED`.
    HiLimit,
    /// LOLIMIT, 0 to `MOST_MODIFIED`.
    LoLimit,
    /// WAITLIMIT, 1 to `MOST_MODIFIED`.
    WaitLimit,
    /// WRTCLUSTER, 1 to `MOST_LIFTS`.
    WrtCluster,
    /// FREELIM, 0 to `MOST_FREE`.
    FreeLim,
    /// FREEGOAL, 0 to `MOST_FREE`.
    FreeGoal,
    /// AWSTIME, 0 to `MOST_COUNTED`.
    AwsTime,
    /// PFRATH, 0 to `MOST_COUNTED`.
    PfrAtH,
    /// PFRATL, 0 to `MOST_COUNTED`.
    PfrAtL,
    /// WSINC, 0 to `MOST_EXTENT`.
    WsInc,
    /// WSDEC, 0 to `MOST_EXTENT`.
    WsDec,
    /// AWSMIN, 2 to `MOST_EXTENT`.
    AwsMin,
    /// BORROWLIM, 0 to `MOST_FREE`.
    BorrowLim,
}

// The parameters of clusters and of the lists.
fn writer_param(word: &[u8]) -> Option<Param>
    ensures { result ≡ writer_param word.now }
{
    if is(word, b"PFC") {
        Some(Param::Pfc)
    } else if is(word, b"HILIMIT") {
        Some(Param::HiLimit)
    } else if is(word, b"LOLIMIT") {
        Some(Param::LoLimit)
    } else if is(word, b"WAITLIMIT") {
        Some(Param::WaitLimit)
    } else if is(word, b"WRTCLUSTER") {
        Some(Param::WrtCluster)
    } else if is(word, b"FREELIM") {
        Some(Param::FreeLim)
    } else if is(word, b"FREEGOAL") {
        Some(Param::FreeGoal)
    } else {
        None
    }
}

// The parameters of the adjustment.
fn other_param(word: &[u8]) -> Option<Param>
    ensures { result ≡ other_param word.now }
{
    if is(word, b"AWSTIME") {
        Some(Param::AwsTime)
    } else if is(word, b"PFRATH") {
        Some(Param::PfrAtH)
    } else if is(word, b"PFRATL") {
        Some(Param::PfrAtL)
    } else if is(word, b"WSINC") {
        Some(Param::WsInc)
    } else if is(word, b"WSDEC") {
        Some(Param::WsDec)
    } else if is(word, b"AWSMIN") {
        Some(Param::AwsMin)
    } else if is(word, b"BORROWLIM") {
        Some(Param::BorrowLim)
    } else {
        None
    }
}

/// The parameter of this name.
///
/// # Errors
/// `UnknownWord` if there is none.
pub fn param_of(word: &[u8]) -> Result<Param, Cause>
    ensures { result ≡ param_of word.now }
{
    if let Some(param) = writer_param(word) {
        return Ok(param);
    }
    match other_param(word) {
        Some(param) => Ok(param),
        None => Err(Cause::UnknownWord),
    }
}

impl Param {
    /// The least value that it may have.
    pub fn least(self) -> u32
        ensures { result ≡ least self }
    {
        match self {
            Param::Pfc | Param::WaitLimit | Param::WrtCluster => 1,
            Param::AwsMin => 2,
            _ => 0,
        }
    }

    /// The greatest value that it may have.
    pub fn most(self) -> u32
        ensures { result ≡ most self }
    {
        match self {
            Param::Pfc => MOST_READ_CLUSTER,
            Param::HiLimit => MOST_MODIFIED,
            Param::LoLimit => MOST_MODIFIED,
            Param::WaitLimit => MOST_MODIFIED,
            Param::WrtCluster => MOST_LIFTS,
            Param::FreeLim => MOST_FREE,
            Param::FreeGoal => MOST_FREE,
            Param::AwsTime => MOST_COUNTED,
            Param::PfrAtH => MOST_COUNTED,
            Param::PfrAtL => MOST_COUNTED,
            Param::WsInc => MOST_EXTENT,
            Param::WsDec => MOST_EXTENT,
            Param::AwsMin => MOST_EXTENT,
            Param::BorrowLim => MOST_FREE,
        }
    }

    /// Its number, 0 to 13.
    pub fn number(self) -> usize
        ensures value { result ≡ number_of self }
        ensures small { result < 14 }
    {
        match self {
            Param::Pfc => 0,
            Param::HiLimit => 1,
            Param::LoLimit => 2,
            Param::WaitLimit => 3,
            Param::WrtCluster => 4,
            Param::FreeLim => 5,
            Param::FreeGoal => 6,
            Param::AwsTime => 7,
            Param::PfrAtH => 8,
            Param::PfrAtL => 9,
            Param::WsInc => 10,
            Param::WsDec => 11,
            Param::AwsMin => 12,
            Param::BorrowLim => 13,
        }
    }

    /// Sets it.
    pub fn set(self, params: &mut Params, n: u32)
        ensures { params.new ≡ with_param self n params.old }
    {
        match self {
            Param::Pfc => params.pfc = n,
            Param::HiLimit => params.hilimit = n,
            Param::LoLimit => params.lolimit = n,
            Param::WaitLimit => params.waitlimit = n,
            Param::WrtCluster => params.wrtcluster = n,
            Param::FreeLim => params.freelim = n,
            Param::FreeGoal => params.freegoal = n,
            Param::AwsTime => params.awstime = n,
            Param::PfrAtH => params.pfrath = n,
            Param::PfrAtL => params.pfratl = n,
            Param::WsInc => params.wsinc = n,
            Param::WsDec => params.wsdec = n,
            Param::AwsMin => params.awsmin = n,
            Param::BorrowLim => params.borrowlim = n,
        }
    }
}
