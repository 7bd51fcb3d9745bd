// What the ID calls allow and give, of user IDs and of group IDs alike: a matter of four IDs, the operands, and whether any ID may be set.
// The operands stand one by one, as in the definitions.
#![tactic(auto, unfolding(rules::specs::Ids::given_or, rules::specs::Ids::one_of_three, rules::specs::Ids::setfsuid_on, rules::specs::Ids::setresuid_ids, rules::specs::Ids::setresuid_on, rules::specs::Ids::setreuid_ids, rules::specs::Ids::setreuid_on, rules::specs::Ids::setreuid_saved, rules::specs::Ids::setuid_ids, rules::specs::Ids::setuid_on, rules::specs::Ids::setuid_allowed, rules::specs::Ids::setreuid_allowed, rules::specs::Ids::setresuid_allowed, rules::specs::Ids::setfsuid_changes))]

ghost use Rattle.std.specs.Prelude.{◌≡◌};
ghost use Rattle.rules.specs.Ids.{given_or, one_of_three, setfsuid_on, setresuid_ids, setresuid_on, setreuid_ids, setreuid_on, setreuid_saved, setuid_ids, setuid_on};

use credentials::{Ids, NO_ID};

// Four IDs, user or group, and whether the thread that has them may set any.
#[derive(Clone, Copy)]
pub(crate) struct Held {
    pub(crate) ids: Ids,
    pub(crate) any: bool,
}

// The new ID: the one given, or else the old one.
fn given_or(old: u64, operand: u64) -> u64
    ensures { result ≡ given_or old operand }
{
    if operand == NO_ID { old } else { operand }
}

// Whether an ID is the real, the effective or the saved one.
pub(crate) fn one_of_three(ids: Ids, id: u64) -> bool
    ensures { result ≡ one_of_three ids id }
{
    (id == ids.real) | (id == ids.effective) | (id == ids.saved)
}

impl Held {
    // setuid and setgid: any ID where any may be set, and else the real or the saved one.
    pub(crate) fn setuid(self, id: u64) -> Option<Ids>
        ensures { result ≡ setuid_on self.any self.ids id }
    {
        let allowed = self.any | (id == self.ids.real) | (id == self.ids.saved);
        allowed.then_some(self.setuid_ids(id))
    }

    // setuid: the new IDs. All four change where any ID may be set, and else the effective and the filesystem ID.
    fn setuid_ids(self, id: u64) -> Ids
        ensures { result ≡ setuid_ids self.any self.ids id }
    {
        let mut next = self.ids;
        next.effective = id;
        next.filesystem = id;
        if self.any {
            next.real = id;
            next.saved = id;
        }
        next
    }

    // setreuid and setregid: where not any ID may be set, the real ID goes to the real or the effective one, and the effective ID to one of the three.
    pub(crate) fn setreuid(self, real: u64, effective: u64) -> Option<Ids>
        ensures { result ≡ setreuid_on self.any self.ids real effective }
    {
        let old = self.ids;
        let new = setreuid_ids(old, real, effective);
        let among = ((new.real == old.real) | (new.real == old.effective))
            & one_of_three(old, new.effective);
        (self.any | among).then_some(new)
    }

    // setresuid and setresgid: where not any ID may be set, each of the three goes to one of the old three.
    pub(crate) fn setresuid(self, real: u64, effective: u64, saved: u64) -> Option<Ids>
        ensures { result ≡ setresuid_on self.any self.ids real effective saved }
    {
        let old = self.ids;
        let new = setresuid_ids(old, real, effective, saved);
        let among = one_of_three(old, new.real)
            & one_of_three(old, new.effective)
            & one_of_three(old, new.saved);
        (self.any | among).then_some(new)
    }

    // setfsuid and setfsgid: the filesystem ID goes to any of the four, or where any ID may be set to any that is given.
    pub(crate) fn setfsuid(self, id: u64) -> Option<Ids>
        ensures { result ≡ setfsuid_on self.any self.ids id }
    {
        let old = self.ids;
        let changes = (id != NO_ID) & (self.any | one_of_three(old, id) | (id == old.filesystem));
        let mut next = old;
        next.filesystem = id;
        changes.then_some(next)
    }
}

// setreuid: the new IDs. The filesystem ID is the effective one.
fn setreuid_ids(old: Ids, real: u64, effective: u64) -> Ids
    ensures { result ≡ setreuid_ids old real effective }
{
    let mut next = old;
    next.real = given_or(old.real, real);
    next.effective = given_or(old.effective, effective);
    next.saved = setreuid_saved(old, real, effective);
    next.filesystem = next.effective;
    next
}

// setreuid: the saved ID becomes the new effective one where real is given, or effective is given and is not the old real.
fn setreuid_saved(old: Ids, real: u64, effective: u64) -> u64
    ensures { result ≡ setreuid_saved old real effective }
{
    if (real != NO_ID) | ((effective != NO_ID) & (effective != old.real)) {
        given_or(old.effective, effective)
    } else {
        old.saved
    }
}

// setresuid: the new IDs. The filesystem ID is the effective one.
fn setresuid_ids(old: Ids, real: u64, effective: u64, saved: u64) -> Ids
    ensures { result ≡ setresuid_ids old real effective saved }
{
    let mut next = old;
    next.real = given_or(old.real, real);
    next.effective = given_or(old.effective, effective);
    next.saved = given_or(old.saved, saved);
    next.filesystem = next.effective;
    next
}
