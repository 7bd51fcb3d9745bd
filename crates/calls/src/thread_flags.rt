// Keep-caps and no-new-privs, calls 11 to 14.
#![tactic(auto, using(rules::proofs::Flags::cast_is_number), unfolding(rules::specs::ThreadFlags::get_keep_caps, rules::specs::ThreadFlags::get_no_new_privs, rules::specs::ThreadFlags::set_keep_caps, rules::specs::ThreadFlags::set_no_new_privs, rules::specs::ThreadFlags::with_keep_caps))]

ghost use Rattle.std.specs.Prelude.{◌≡◌};
ghost use Rattle.rules.specs.ThreadFlags.{get_keep_caps, get_no_new_privs, set_keep_caps, set_no_new_privs};

use crate::done::done;
use capabilities::sets;
use credentials::Credentials;
use credentials::securebits::{SECBIT_KEEP_CAPS, SECBIT_KEEP_CAPS_LOCKED};
use rules::{Answer, Cause, Refusal};

// Call 11: refused where KEEP_CAPS is locked. No capability is needed.
pub(crate) fn set_keep_caps(start: Credentials, on: bool) -> Answer
    ensures { result ≡ set_keep_caps start on }
{
    if start.securebits & SECBIT_KEEP_CAPS_LOCKED != 0 {
        return Err(Refusal::NotPermitted(Cause::LockedFlagChanged));
    }
    let mut next = start;
    next.securebits = if on {
        start.securebits | SECBIT_KEEP_CAPS
    } else {
        sets::difference(start.securebits, SECBIT_KEEP_CAPS)
    };
    done(0, next)
}

// Call 12: 1 where KEEP_CAPS is set.
pub(crate) fn get_keep_caps(start: Credentials) -> Answer
    ensures { result ≡ get_keep_caps start }
{
    done(u64::from(start.securebits & SECBIT_KEEP_CAPS != 0), start)
}

// Call 13: no-new-privs is set, for good.
pub(crate) fn set_no_new_privs(start: Credentials) -> Answer
    ensures { result ≡ set_no_new_privs start }
{
    let mut next = start;
    next.nnp = true;
    done(0, next)
}

// Call 14: 1 where no-new-privs is set.
pub(crate) fn get_no_new_privs(start: Credentials) -> Answer
    ensures { result ≡ get_no_new_privs start }
{
    done(u64::from(start.nnp), start)
}
