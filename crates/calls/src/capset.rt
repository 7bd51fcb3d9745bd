// capset(2), call 2.
#![tactic(auto, unfolding(rules::specs::Capset::capset, rules::specs::Capset::capset_sets))]

ghost use Rattle.std.specs.Prelude.{◌≡◌};
ghost use Rattle.rules.specs.Capset.{capset};

use crate::done::done;
use capabilities::header::CAP_SETPCAP;
use capabilities::sets;
use credentials::Credentials;
use rules::{Answer, Cause, Refusal};

// Call 2: the new sets, if the four tests, which stand in the order of the rule, allow them. The ambient set loses what left the
// permitted or the inheritable one.
pub(crate) fn capset(start: Credentials, permitted: u64, inheritable: u64, effective: u64) -> Answer
    ensures { result ≡ capset start permitted inheritable effective }
{
    let held = start.sets;
    if sets::lacks(held.effective, CAP_SETPCAP)
        & sets::outside(inheritable, held.inheritable | held.permitted)
    {
        return Err(Refusal::NotPermitted(Cause::InheritableBeyondPermitted));
    }
    if sets::outside(inheritable, held.inheritable | held.bounding) {
        return Err(Refusal::NotPermitted(Cause::InheritableBeyondBounding));
    }
    if sets::outside(permitted, held.permitted) {
        return Err(Refusal::NotPermitted(Cause::PermittedGrows));
    }
    if sets::outside(effective, permitted) {
        return Err(Refusal::NotPermitted(Cause::EffectiveBeyondPermitted));
    }
    let mut next = start;
    next.sets.permitted = permitted;
    next.sets.inheritable = inheritable;
    next.sets.effective = effective;
    next.sets.ambient = held.ambient & permitted & inheritable;
    done(0, next)
}
