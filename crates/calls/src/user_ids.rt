// User IDs, and what follows for the sets where they change: rules 1 to 4.
#![tactic(auto, unfolding(rules::specs::Ids::effective_left, rules::specs::Ids::effective_taken, rules::specs::Ids::filesystem_left, rules::specs::Ids::filesystem_taken, rules::specs::Ids::root_left, rules::specs::Ids::sets_after, rules::specs::Ids::sets_after_filesystem))]

ghost use Rattle.std.specs.Prelude.{◌≡◌, refl};
ghost use Rattle.capabilities.specs.Header.{CAP_SETUID};
ghost use Rattle.rules.specs.Fields.{with_sets, with_uids};
ghost use Rattle.rules.specs.Ids.{effective_left, effective_taken, filesystem_left, filesystem_taken, filesystem_user_id_changed, root_left, sets_after, sets_after_filesystem, user_ids_changed};

use crate::id_calls::Kind;
use crate::ids;
use capabilities::header::CAP_SETUID;
use capabilities::sets;
use credentials::securebits::{SECBIT_KEEP_CAPS, SECBIT_NO_SETUID_FIXUP};
use credentials::{Credentials, Ids, Sets};

// Rule 4's set: CHOWN, DAC_OVERRIDE, DAC_READ_SEARCH, FOWNER, FSETID, LINUX_IMMUTABLE, MKNOD and MAC_OVERRIDE.
const FILESYSTEM_SET: u64 = 0x1_0800_021f;

// The kind of calls 15 to 18.
pub(crate) struct UserIds;

impl Kind for UserIds {
    ghost of = { λ c. c.uids };

    ghost with = { λ c new. with_sets (with_uids c new) (sets_after c.uids new c.securebits c.sets) };

    ghost with_filesystem = { λ c new. with_sets (with_uids c new) (sets_after_filesystem c.uids new c.securebits c.sets) };

    ghost changed = { user_ids_changed };

    ghost filesystem_changed = { filesystem_user_id_changed };

    ghost CAPABILITY = { CAP_SETUID };

    ghost allowed = { λ c new. refl };

    ghost not_allowed = { λ c. refl };

    ghost filesystem_allowed = { λ c new. refl };

    ghost filesystem_not_allowed = { λ c. refl };

    const CAPABILITY: u64 = CAP_SETUID;

    fn ids(held: Credentials) -> Ids {
        held.uids
    }

    // The sets follow by rules 1 to 3.
    fn with_ids(held: Credentials, new: Ids) -> Credentials {
        let old = held.uids;
        let sets = Change { old, new }.sets_after(held.securebits, held.sets);
        with_uids_and_sets(held, new, sets)
    }

    // The effective set follows by rule 4.
    fn with_filesystem_id(held: Credentials, new: Ids) -> Credentials {
        let old = held.uids;
        let sets = Change { old, new }.sets_after_filesystem(held.securebits, held.sets);
        with_uids_and_sets(held, new, sets)
    }
}

// The credentials with these user IDs and these sets.
fn with_uids_and_sets(held: Credentials, uids: Ids, sets: Sets) -> Credentials
    ensures { result ≡ with_sets (with_uids held uids) sets }
{
    let mut next = held;
    next.uids = uids;
    next.sets = sets;
    next
}

// A change of the four user IDs.
#[derive(Clone, Copy)]
struct Change {
    old: Ids,
    new: Ids,
}

impl Change {
    // Calls 15 to 17: what rules 1, 2 and 3 make of the sets, unless NO_SETUID_FIXUP is set.
    fn sets_after(self, securebits: u64, held: Sets) -> Sets
        ensures { result ≡ sets_after self.old self.new securebits held }
    {
        if securebits & SECBIT_NO_SETUID_FIXUP != 0 {
            return held;
        }
        let by_1 = self.root_left(securebits, held);
        let by_2 = self.effective_left(by_1);
        self.effective_taken(by_2)
    }

    // Rule 1: where one of the three IDs was 0 and none is now, A is cleared, and P and E too unless KEEP_CAPS is set.
    fn root_left(self, securebits: u64, held: Sets) -> Sets
        ensures { result ≡ root_left self.old self.new securebits held }
    {
        if !(ids::one_of_three(self.old, 0) & !ids::one_of_three(self.new, 0)) {
            return held;
        }
        let mut next = held;
        next.ambient = 0;
        if securebits & SECBIT_KEEP_CAPS == 0 {
            next.permitted = 0;
            next.effective = 0;
        }
        next
    }

    // Rule 2: the effective ID from 0 to nonzero clears E.
    fn effective_left(self, held: Sets) -> Sets
        ensures { result ≡ effective_left self.old self.new held }
    {
        let mut next = held;
        if (self.old.effective == 0) & (self.new.effective != 0) {
            next.effective = 0;
        }
        next
    }

    // Rule 3: the effective ID from nonzero to 0 makes P the effective set.
    fn effective_taken(self, held: Sets) -> Sets
        ensures { result ≡ effective_taken self.old self.new held }
    {
        let mut next = held;
        if (self.old.effective != 0) & (self.new.effective == 0) {
            next.effective = held.permitted;
        }
        next
    }

    // Call 18: what rule 4 makes of the sets, unless NO_SETUID_FIXUP is set.
    fn sets_after_filesystem(self, securebits: u64, held: Sets) -> Sets
        ensures { result ≡ sets_after_filesystem self.old self.new securebits held }
    {
        if securebits & SECBIT_NO_SETUID_FIXUP != 0 {
            return held;
        }
        let left = self.filesystem_left(held);
        self.filesystem_taken(left)
    }

    // Rule 4: the filesystem ID from 0 to nonzero takes the filesystem set from E.
    fn filesystem_left(self, held: Sets) -> Sets
        ensures { result ≡ filesystem_left self.old self.new held }
    {
        let mut next = held;
        if (self.old.filesystem == 0) & (self.new.filesystem != 0) {
            next.effective = sets::difference(held.effective, FILESYSTEM_SET);
        }
        next
    }

    // Rule 4: the filesystem ID from nonzero to 0 gives E the filesystem set's part of P.
    fn filesystem_taken(self, held: Sets) -> Sets
        ensures { result ≡ filesystem_taken self.old self.new held }
    {
        let mut next = held;
        if (self.old.filesystem != 0) & (self.new.filesystem == 0) {
            next.effective |= FILESYSTEM_SET & held.permitted;
        }
        next
    }
}
