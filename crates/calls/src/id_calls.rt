// The ID calls: 15 to 18 on user IDs (setuid(2), setreuid(2), setresuid(2), setfsuid(2)), and by the same rules 19 to 22 on group IDs (setgid(2),
// setregid(2), setresgid(2), setfsgid(2)).
ghost use Rattle.std.specs.Prelude.{◌≡◌, ℕ, Option, Some, None, Err};
ghost use Rattle.capabilities.specs.Sets.{has};
ghost use Rattle.credentials.specs.declared.Credentials.{Credentials};
ghost use Rattle.credentials.specs.declared.Ids.{Ids};
ghost use Rattle.rules.specs.Answers.{Answer, done};
ghost use Rattle.rules.specs.Ids.{setfsuid_on, setresuid_on, setreuid_on, setuid_on};
ghost use Rattle.rules.specs.declared.Refusal.TheVariants.{NotPermitted};
ghost use Rattle.rules.specs.declared.Cause.TheVariants.{IdNotAllowed};

use crate::done::done;
use crate::ids::Held;
use capabilities::sets;
use credentials::{Credentials, Ids};
use rules::{Answer, Cause, Refusal};

// A kind of IDs that a thread has and a call sets: user IDs or group IDs.
pub(crate) trait Kind {
    // The four IDs of the kind.
    ghost of: { Credentials → Ids };

    // The credentials after a call of the first three, or of the fourth, that makes these the IDs.
    ghost with: { Credentials → Ids → Credentials };

    ghost with_filesystem: { Credentials → Ids → Credentials };

    // What the first three calls answer, and the fourth, by the IDs that they may make.
    ghost changed: { Credentials → Option Ids → Answer };

    ghost filesystem_changed: { Credentials → Option Ids → Answer };

    // The capability with which a thread may set any ID of the kind.
    ghost CAPABILITY: { ℕ };

    const CAPABILITY: u64;

    fn ids(held: Credentials) -> Ids
        ensures { result ≡ of held };

    fn with_ids(held: Credentials, new: Ids) -> Credentials
        ensures { result ≡ with held new };

    fn with_filesystem_id(held: Credentials, new: Ids) -> Credentials
        ensures { result ≡ with_filesystem held new };

    ghost allowed: { (c : Credentials) (new : Ids) → changed c (Some new) ≡ done 0 (with c new) };

    ghost not_allowed: { (c : Credentials) → changed c None ≡ Err (NotPermitted IdNotAllowed) };

    ghost filesystem_allowed: { (c : Credentials) (new : Ids) → filesystem_changed c (Some new) ≡ done (of c).filesystem (with_filesystem c new) };

    ghost filesystem_not_allowed: { (c : Credentials) → filesystem_changed c None ≡ done (of c).filesystem c };
}

// Calls 15 and 19: all four IDs become id for a thread that may set any. Without that id has to be the real or the saved one, else the call is
// refused, and the effective and the filesystem ID become it.
pub(crate) fn setuid<K: Kind>(start: Credentials, id: u64) -> Answer
    ensures { result ≡ K.changed start (setuid_on (has start.sets.effective K.CAPABILITY) (K.of start) id) }
{
    changed::<K>(start, held::<K>(start).setuid(id))
}

// Calls 16 and 20: the real and the effective ID become those given, and the filesystem ID follows the effective one; refused where the thread
// may not set any and an ID is not among those allowed.
pub(crate) fn setreuid<K: Kind>(start: Credentials, real: u64, effective: u64) -> Answer
    ensures { result ≡ K.changed start (setreuid_on (has start.sets.effective K.CAPABILITY) (K.of start) real effective) }
{
    changed::<K>(start, held::<K>(start).setreuid(real, effective))
}

// Calls 17 and 21: the real, the effective and the saved ID become those given, and the filesystem ID follows the effective one; refused where the
// thread may not set any and an ID is not among those allowed.
pub(crate) fn setresuid<K: Kind>(
    start: Credentials,
    real: u64,
    effective: u64,
    saved: u64,
) -> Answer
    ensures { result ≡ K.changed start (setresuid_on (has start.sets.effective K.CAPABILITY) (K.of start) real effective saved) }
{
    changed::<K>(start, held::<K>(start).setresuid(real, effective, saved))
}

// Calls 18 and 22: the filesystem ID becomes id, if it may. Never refused: the value is the old filesystem ID whether it changes or not.
pub(crate) fn setfsuid<K: Kind>(start: Credentials, id: u64) -> Answer
    ensures { result ≡ K.filesystem_changed start (setfsuid_on (has start.sets.effective K.CAPABILITY) (K.of start) id) }
{
    let held = held::<K>(start);
    let after = match held.setfsuid(id) {
        Some(new) => K::with_filesystem_id(start, new),
        None => start,
    };
    done(held.ids.filesystem, after)
}

// A thread's IDs of the kind, and whether it may set any.
fn held<K: Kind>(start: Credentials) -> Held
    ensures ids { result.ids ≡ K.of start }
    ensures any { result.any ≡ has start.sets.effective K.CAPABILITY }
{
    Held {
        ids: K::ids(start),
        any: sets::has(start.sets.effective, K::CAPABILITY),
    }
}

// The first three calls: the new IDs and what follows for the sets, or refused.
fn changed<K: Kind>(start: Credentials, new: Option<Ids>) -> Answer
    ensures { result ≡ K.changed start new }
{
    let new = new.ok_or(Refusal::NotPermitted(Cause::IdNotAllowed))?;
    done(0, K::with_ids(start, new))
}
