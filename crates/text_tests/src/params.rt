//! The parameters of the configurations that tests of several parts begin with.

use vm_types::Params;

pub(crate) const PARAMS: Params = Params {
    pfc: 1,
    hilimit: 0,
    lolimit: 0,
    waitlimit: 1,
    wrtcluster: 1,
    freelim: 0,
    freegoal: 0,
    awstime: 0,
    pfrath: 0,
    pfratl: 0,
    wsinc: 0,
    wsdec: 0,
    awsmin: 2,
    borrowlim: 0,
};
