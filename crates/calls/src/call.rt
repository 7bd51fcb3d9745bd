// A call as a whole: credentials, a number, operands and attribute bytes in, the answer out.
#![tactic(auto, unfolding(rules::specs::Call::answer, rules::specs::Ids::setuid, rules::specs::Ids::setreuid, rules::specs::Ids::setresuid, rules::specs::Ids::setfsuid, rules::specs::Ids::setgid, rules::specs::Ids::setregid, rules::specs::Ids::setresgid, rules::specs::Ids::setfsgid))]

ghost use Rattle.std.specs.Prelude.{◌≡◌};
ghost use Rattle.rules.specs.Call.{answer, performed};

use crate::ambient::{ambient_clear_all, ambient_is_set, ambient_lower, ambient_raise};
use crate::bounding::{bounding_drop, bounding_read};
use crate::capset::capset;
use crate::decoding::decode;
use crate::group_ids::GroupIds;
use crate::id_calls::{setfsuid, setresuid, setreuid, setuid};
use crate::launching::launch;
use crate::securebits::{get_securebits, set_securebits};
use crate::thread_flags::{get_keep_caps, get_no_new_privs, set_keep_caps, set_no_new_privs};
use crate::user_ids::UserIds;
use credentials::Credentials;
use rules::{Answer, Call, Refusal};

// The answer to a call: for any credentials, number, operands and attribute bytes. Credentials that are not valid are refused first, then
// what makes no call, then an attribute that cannot be read, and last what the call's own rules refuse.
pub fn perform(start: Credentials, number: u64, a: u64, b: u64, c: u64, attribute: &[u8]) -> Answer
    ensures { result ≡ answer start number a b c attribute.now }
{
    if !credentials::is_valid(start) {
        return Err(Refusal::InvalidCredentials);
    }
    let call = decode(number, a, b, c, attribute.len()).ok_or(Refusal::InvalidArgument)?;
    performed(start, attribute, call)
}

// What a call that is known does, by its own rules.
fn performed(start: Credentials, attribute: &[u8], call: Call) -> Answer
    ensures { result ≡ performed start attribute.now call }
{
    match call {
        Call::Execve {
            owner,
            flags,
            group,
        } => launch(start, owner, flags, group, attribute),
        Call::Capset {
            permitted,
            inheritable,
            effective,
        } => capset(start, permitted, inheritable, effective),
        Call::BoundingDrop { capability } => bounding_drop(start, capability),
        Call::BoundingRead { capability } => bounding_read(start, capability),
        Call::AmbientRaise { capability } => ambient_raise(start, capability),
        Call::AmbientLower { capability } => ambient_lower(start, capability),
        Call::AmbientIsSet { capability } => ambient_is_set(start, capability),
        Call::AmbientClearAll => ambient_clear_all(start),
        Call::SetSecurebits { bits } => set_securebits(start, bits),
        Call::GetSecurebits => get_securebits(start),
        Call::SetKeepCaps { on } => set_keep_caps(start, on),
        Call::GetKeepCaps => get_keep_caps(start),
        Call::SetNoNewPrivs => set_no_new_privs(start),
        Call::GetNoNewPrivs => get_no_new_privs(start),
        Call::Setuid { id } => setuid::<UserIds>(start, id),
        Call::Setreuid { real, effective } => setreuid::<UserIds>(start, real, effective),
        Call::Setresuid {
            real,
            effective,
            saved,
        } => setresuid::<UserIds>(start, real, effective, saved),
        Call::Setfsuid { id } => setfsuid::<UserIds>(start, id),
        Call::Setgid { id } => setuid::<GroupIds>(start, id),
        Call::Setregid { real, effective } => setreuid::<GroupIds>(start, real, effective),
        Call::Setresgid {
            real,
            effective,
            saved,
        } => setresuid::<GroupIds>(start, real, effective, saved),
        Call::Setfsgid { id } => setfsuid::<GroupIds>(start, id),
    }
}
