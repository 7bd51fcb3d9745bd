// The bounding set, calls 3 and 4.
#![tactic(auto, using(rules::proofs::Flags::cast_is_number), unfolding(rules::specs::Bounding::bounding_drop, rules::specs::Bounding::bounding_read))]

ghost use Rattle.std.specs.Prelude.{◌≡◌};
ghost use Rattle.rules.specs.Bounding.{bounding_drop, bounding_read};

use crate::done::done;
use capabilities::header::CAP_SETPCAP;
use capabilities::sets;
use credentials::Credentials;
use rules::{Answer, Cause, Refusal};

// Call 3: a capability leaves the bounding set, for a thread with SETPCAP. The other sets stay.
pub(crate) fn bounding_drop(start: Credentials, capability: u64) -> Answer
    ensures { result ≡ bounding_drop start capability }
{
    if sets::lacks(start.sets.effective, CAP_SETPCAP) {
        return Err(Refusal::NotPermitted(Cause::CapabilityNotEffective));
    }
    let mut next = start;
    next.sets.bounding = sets::difference(start.sets.bounding, sets::single(capability));
    done(0, next)
}

// Call 4: 1 where a capability is in the bounding set. (As call 7 of the ambient set: one function of any set would be no shorter.)
pub(crate) fn bounding_read(start: Credentials, capability: u64) -> Answer
    ensures { result ≡ bounding_read start capability }
{
    done(u64::from(sets::has(start.sets.bounding, capability)), start)
}
