// Launching, call 1: execve(2) of a file with an owner, flags, a group and an attribute.
#![tactic(auto, unfolding(rules::specs::Launching::changes_effective, rules::specs::Launching::counted, rules::specs::Launching::counted_set, rules::specs::Launching::effective_id, rules::specs::Launching::falls_short, rules::specs::Launching::file_read, rules::specs::Launching::gained, rules::specs::Launching::ignores_set_id, rules::specs::Launching::in_force, rules::specs::Launching::launch, rules::specs::Launching::launched, rules::specs::Launching::launched_ambient, rules::specs::Launching::launched_effective, rules::specs::Launching::launched_ids, rules::specs::Launching::launched_sets, rules::specs::Launching::root_counts, rules::specs::Launching::ignores_attribute, rules::specs::Launching::is_privileged))]

ghost use Rattle.std.specs.Prelude.{◌≡◌};
ghost use Rattle.rules.specs.Launching.{changes_effective, counted, counted_set, effective_id, falls_short, file_read, gained, ignores_set_id, in_force, launch, launched, launched_ambient, launched_effective, launched_ids, launched_sets, root_counts};

use crate::done::done;
use attribute::{FileCapabilities, ReadError};
use capabilities::sets;
use credentials::securebits::{SECBIT_KEEP_CAPS, SECBIT_NOROOT};
use credentials::{Credentials, Ids, Sets};
use rules::{Answer, Cause, Refusal};

// The file's mode has the set-user-ID bit.
const SET_USER_ID: u64 = 1;

// The file's mode has the set-group-ID bit.
const SET_GROUP_ID: u64 = 2;

// The file lies on a nosuid mount.
const NOSUID: u64 = 4;

// The thread is traced.
const TRACED: u64 = 8;

// The kernel was booted with no_file_caps.
const NO_FILE_CAPS: u64 = 16;

// Call 1: what a launch of a file with this owner, these flags, this group and this attribute leaves. It is refused where the attribute counts and
// cannot be read, and then by f where the file's own bit is on and its own permitted set is not given whole.
pub(crate) fn launch(
    start: Credentials,
    owner: u64,
    flags: u64,
    group: u64,
    attribute: &[u8],
) -> Answer
    ensures { result ≡ launch start owner flags group attribute.now }
{
    let nnp = start.nnp;
    let mode = Mode { nnp, flags };
    let Ok(file) = mode.file_read(attribute) else {
        return Err(Refusal::UnreadableAttribute);
    };
    if falls_short(start.sets, file) {
        return Err(Refusal::NotPermitted(Cause::LaunchFallsShort));
    }
    done(0, launched(start, owner, flags, group, file))
}

// How a file is launched: with no-new-privs or without, and with the call's flags.
#[derive(Clone, Copy)]
struct Mode {
    nnp: bool,
    flags: u64,
}

impl Mode {
    // Launching, a: an attribute that is ignored is not read and counts as not attached.
    fn file_read(self, attribute: &[u8]) -> Result<FileCapabilities, ReadError>
        ensures { result ≡ file_read self.nnp self.flags attribute.now }
    {
        if self.ignores_set_id() | (self.flags & NO_FILE_CAPS != 0) {
            return Ok(FileCapabilities {
                attached: false,
                permitted: 0,
                inheritable: 0,
                effective: false,
            });
        }
        attribute::read(attribute)
    }

    // Launching, a: whether the set-ID bits are ignored.
    fn ignores_set_id(self) -> bool
        ensures { result ≡ ignores_set_id self.nnp self.flags }
    {
        self.nnp | (self.flags & NOSUID != 0) | (self.flags & TRACED != 0)
    }

    // Launching, a and b: whether a set-ID bit is set and not ignored.
    fn in_force(self, bit: u64) -> bool
        ensures { result ≡ in_force self.nnp self.flags bit }
    {
        (self.flags & bit != 0) & !self.ignores_set_id()
    }
}

// Launching, b to e: what a launch that is not refused leaves. No-new-privs stays.
fn launched(
    start: Credentials,
    owner: u64,
    flags: u64,
    group: u64,
    file: FileCapabilities,
) -> Credentials
    ensures { result ≡ launched start owner flags group file }
{
    let nnp = start.nnp;
    let mode = Mode { nnp, flags };
    let by_owner = SetId {
        in_force: mode.in_force(SET_USER_ID),
        id: owner,
    };
    let by_group = SetId {
        in_force: mode.in_force(SET_GROUP_ID),
        id: group,
    };
    let uids = by_owner.launched_ids(start.uids);
    let gids = by_group.launched_ids(start.gids);
    let counting = Counting {
        securebits: start.securebits,
        uids,
        file,
    };
    let privileged = file.attached
        | by_owner.changes_effective(start.uids)
        | by_group.changes_effective(start.gids);
    let ambient = launched_ambient(privileged, start.sets.ambient);
    let mut next = start;
    next.uids = uids;
    next.gids = gids;
    next.sets = launched_sets(start.sets, counting.counted(), ambient);
    next.securebits = sets::difference(start.securebits, SECBIT_KEEP_CAPS);
    next
}

// A set-ID bit, user or group: whether it is in force, and the file's ID.
#[derive(Clone, Copy)]
struct SetId {
    in_force: bool,
    id: u64,
}

impl SetId {
    // Launching, b: the saved and the filesystem ID follow the effective one.
    fn launched_ids(self, old: Ids) -> Ids
        ensures { result ≡ launched_ids self.in_force self.id old }
    {
        let effective = self.effective_id(old);
        let mut next = old;
        next.effective = effective;
        next.saved = effective;
        next.filesystem = effective;
        next
    }

    // Launching, b: the effective ID, which a set-ID bit in force makes the file's.
    fn effective_id(self, old: Ids) -> u64
        ensures { result ≡ effective_id self.in_force self.id old }
    {
        if self.in_force {
            self.id
        } else {
            old.effective
        }
    }

    // Launching, d: whether the bit counts: in force, it makes the effective ID differ from what it was.
    fn changes_effective(self, old: Ids) -> bool
        ensures { result ≡ changes_effective self.in_force self.id old }
    {
        self.in_force & (self.id != old.effective)
    }
}

// What rule c of launching looks at: a file, and the user IDs and the securebits that it is launched with.
#[derive(Clone, Copy)]
struct Counting {
    securebits: u64,
    uids: Ids,
    file: FileCapabilities,
}

impl Counting {
    // Launching, c: the file's sets and bit as they count.
    fn counted(self) -> FileCapabilities
        ensures { result ≡ counted self.securebits self.uids self.file }
    {
        let mut next = self.file;
        next.permitted = self.counted_set(self.file.permitted);
        next.inheritable = self.counted_set(self.file.inheritable);
        next.effective = self.file.effective | (self.root_counts() & (self.uids.effective == 0));
        next
    }

    // Launching, c: one of the file's sets as it counts, full for root.
    fn counted_set(self, own: u64) -> u64
        ensures { result ≡ counted_set self.securebits self.uids self.file own }
    {
        if self.root_counts() & ((self.uids.real == 0) | (self.uids.effective == 0)) {
            sets::FULL
        } else {
            own
        }
    }

    // Launching, c: whether root counts for more: NOROOT is clear, and it is not the exception of an attribute that is
    // attached with an effective ID of 0 alone.
    fn root_counts(self) -> bool
        ensures { result ≡ root_counts self.securebits self.uids self.file }
    {
        let keeps_own = self.file.attached & (self.uids.real != 0) & (self.uids.effective == 0);
        !(self.securebits & SECBIT_NOROOT != 0) & !keeps_own
    }
}

// Launching, d: the ambient set, which a privileged file empties: one whose attribute counts, or a set-ID bit of it.
fn launched_ambient(privileged: bool, ambient: u64) -> u64
    ensures { result ≡ launched_ambient privileged ambient }
{
    if privileged { 0 } else { ambient }
}

// Launching, e and f: what a file gives a thread with these sets.
fn gained(held: Sets, file: FileCapabilities) -> u64
    ensures { result ≡ gained held file }
{
    (held.inheritable & file.inheritable) | (file.permitted & held.bounding)
}

// Launching, e: the sets from the file as it counts and the new ambient set. The inheritable and the bounding set stay.
fn launched_sets(held: Sets, file: FileCapabilities, ambient: u64) -> Sets
    ensures { result ≡ launched_sets held file ambient }
{
    let permitted = gained(held, file) | ambient;
    let mut next = held;
    next.permitted = permitted;
    next.effective = launched_effective(file.effective, permitted, ambient);
    next.ambient = ambient;
    next
}

// Launching, e: the effective set, which is the new permitted one where the file's bit counts as on.
fn launched_effective(on: bool, permitted: u64, ambient: u64) -> u64
    ensures { result ≡ launched_effective on permitted ambient }
{
    if on { permitted } else { ambient }
}

// Launching, f: whether the file's own bit is on and its own permitted set is not given whole.
fn falls_short(held: Sets, file: FileCapabilities) -> bool
    ensures { result ≡ falls_short held file }
{
    file.effective & sets::outside(file.permitted, gained(held, file))
}
