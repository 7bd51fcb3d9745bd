// Securebits, calls 9 and 10.
#![tactic(auto, unfolding(rules::specs::Securebits::get_securebits, rules::specs::Securebits::set_securebits, rules::specs::Securebits::changes_locked))]

ghost use Rattle.std.specs.Prelude.{◌≡◌};
ghost use Rattle.rules.specs.Securebits.{get_securebits, set_securebits};

use crate::done::done;
use capabilities::header::CAP_SETPCAP;
use capabilities::sets;
use credentials::Credentials;
use rules::{Answer, Cause, Refusal};

// The locks of the four flags. Each is twice its flag.
const ALL_LOCKS: u64 = 0xaa;

// Call 9: needs SETPCAP. A lock that is set stays, and a flag that is locked stays as it is.
pub(crate) fn set_securebits(start: Credentials, bits: u64) -> Answer
    ensures { result ≡ set_securebits start bits }
{
    if sets::lacks(start.sets.effective, CAP_SETPCAP) {
        return Err(Refusal::NotPermitted(Cause::CapabilityNotEffective));
    }
    let locks = start.securebits & ALL_LOCKS;
    if sets::outside(locks, bits) {
        return Err(Refusal::NotPermitted(Cause::LockUndone));
    }
    let locked = locks / 2;
    if start.securebits & locked != bits & locked {
        return Err(Refusal::NotPermitted(Cause::LockedFlagChanged));
    }
    let mut next = start;
    next.securebits = bits;
    done(0, next)
}

// Call 10: all the bits.
pub(crate) fn get_securebits(start: Credentials) -> Answer
    ensures { result ≡ get_securebits start }
{
    done(start.securebits, start)
}
