// The ambient set, calls 5 to 8.
#![tactic(auto, using(rules::proofs::Flags::cast_is_number), unfolding(rules::specs::Ambient::ambient_clear_all, rules::specs::Ambient::ambient_is_set, rules::specs::Ambient::ambient_lower, rules::specs::Ambient::ambient_raise))]

ghost use Rattle.std.specs.Prelude.{◌≡◌};
ghost use Rattle.rules.specs.Ambient.{ambient_clear_all, ambient_is_set, ambient_lower, ambient_raise};

use crate::done::done;
use capabilities::sets;
use credentials::Credentials;
use credentials::securebits::SECBIT_NO_CAP_AMBIENT_RAISE;
use rules::{Answer, Cause, Refusal};

// Call 5: a capability of both P and I comes into the ambient set, unless NO_CAP_AMBIENT_RAISE is set.
pub(crate) fn ambient_raise(start: Credentials, capability: u64) -> Answer
    ensures { result ≡ ambient_raise start capability }
{
    if sets::lacks(start.sets.permitted, capability)
        | sets::lacks(start.sets.inheritable, capability)
    {
        return Err(Refusal::NotPermitted(Cause::NotInPermittedAndInheritable));
    }
    if start.securebits & SECBIT_NO_CAP_AMBIENT_RAISE != 0 {
        return Err(Refusal::NotPermitted(Cause::AmbientRaiseForbidden));
    }
    let mut next = start;
    next.sets.ambient |= sets::single(capability);
    done(0, next)
}

// Call 6: a capability leaves the ambient set. Nothing is needed.
pub(crate) fn ambient_lower(start: Credentials, capability: u64) -> Answer
    ensures { result ≡ ambient_lower start capability }
{
    let mut next = start;
    next.sets.ambient = sets::difference(start.sets.ambient, sets::single(capability));
    done(0, next)
}

// Call 7: 1 where a capability is in the ambient set.
pub(crate) fn ambient_is_set(start: Credentials, capability: u64) -> Answer
    ensures { result ≡ ambient_is_set start capability }
{
    done(u64::from(sets::has(start.sets.ambient, capability)), start)
}

// Call 8: the ambient set is emptied.
pub(crate) fn ambient_clear_all(start: Credentials) -> Answer
    ensures { result ≡ ambient_clear_all start }
{
    let mut next = start;
    next.sets.ambient = 0;
    done(0, next)
}
