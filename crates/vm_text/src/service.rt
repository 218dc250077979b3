ghost use Rattle.std.specs.Prelude.{◌≡◌, ◌≢◌, ◌+◌, ◌<◌, ◌≤◌, ◌++◌};
ghost use Rattle.arrayvec.specs.ArrayVec.{array_vec_len};
ghost use Rattle.vm_types.specs.WellFormed.{IsCode};
ghost use Rattle.vm_text.specs.Readings.{Reads};
ghost use Rattle.vm_text.specs.Services.{protection_name, service_name};

use crate::text::push_word;
use arrayvec::ArrayVec;
use vm_types::Service;

/// Adds the name of a protection code, below 16 and not the reserved 1. Doesn't allocate.
pub fn push_protection<const CAP: usize>(out: &mut ArrayVec<u8, CAP>, code: u8)
    requires named { IsCode code }
    requires room { array_vec_len out.old + 4 ≤ CAP }
    ensures items { out.new.items ≡ out.old.items ++ protection_name code }
    ensures len { array_vec_len out.new ≤ array_vec_len out.old + 4 }
{
    match code {
        0 => push_word(out, b"NA"),
        2 => push_word(out, b"KW"),
        3 => push_word(out, b"KR"),
        4 => push_word(out, b"UW"),
        5 => push_word(out, b"EW"),
        6 => push_word(out, b"ERKW"),
        7 => push_word(out, b"ER"),
        8 => push_word(out, b"SW"),
        9 => push_word(out, b"SREW"),
        10 => push_word(out, b"SRKW"),
        11 => push_word(out, b"SR"),
        12 => push_word(out, b"URSW"),
        13 => push_word(out, b"UREW"),
        14 => push_word(out, b"URKW"),
        15 => push_word(out, b"UR"),
        _ => unreachable!(),
    }
}

/// Adds the name of a service, as `CRETVA`. Doesn't allocate.
pub fn push_service_name<const CAP: usize>(out: &mut ArrayVec<u8, CAP>, service: Service)
    requires { array_vec_len out.old + 6 ≤ CAP }
    ensures items { out.new.items ≡ out.old.items ++ service_name service }
    ensures len { array_vec_len out.new ≤ array_vec_len out.old + 6 }
{
    match service {
        Service::Create { .. } => push_word(out, b"CRETVA"),
        Service::Delete { .. } => push_word(out, b"DELTVA"),
        Service::Protect { .. } => push_word(out, b"SETPRT"),
        Service::Lock { .. } => push_word(out, b"LKWSET"),
        Service::Unlock { .. } => push_word(out, b"ULWSET"),
        Service::Purge { .. } => push_word(out, b"PURGWS"),
        Service::Pin { .. } => push_word(out, b"LCKPAG"),
        Service::Unpin { .. } => push_word(out, b"ULKPAG"),
        Service::Adjust { .. } => push_word(out, b"ADJWSL"),
    }
}

/// The protection code of this name, below 16 and not the reserved 1. Doesn't allocate.
pub fn read_protection(word: &[u8]) -> Option<u8>
    ensures { Reads IsCode protection_name word.now result }
{
    match word {
        b"NA" => Some(0),
        b"KW" => Some(2),
        b"KR" => Some(3),
        b"UW" => Some(4),
        b"EW" => Some(5),
        b"ERKW" => Some(6),
        b"ER" => Some(7),
        b"SW" => Some(8),
        b"SREW" => Some(9),
        b"SRKW" => Some(10),
        b"SR" => Some(11),
        b"URSW" => Some(12),
        b"UREW" => Some(13),
        b"URKW" => Some(14),
        b"UR" => Some(15),
        _ => None,
    }
}
