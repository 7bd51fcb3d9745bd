// Which credentials are valid.
#![tactic(auto, unfolding(crate::specs::Validity::valid))]

ghost use Rattle.std.specs.Prelude.{◌≡◌};
ghost use Rattle.credentials.specs.Validity.{ambient_held, ids_in_range, no_bit_above40, valid};

use crate::{Credentials, Ids, Sets};
use capabilities::sets;

// The largest user or group ID.
pub const LARGEST_ID: u64 = 4294967294;

// All eight securebits.
pub const LARGEST_SECUREBITS: u64 = 255;

// Whether the credentials are valid. No-new-privs is valid either way.
pub fn is_valid(given: Credentials) -> bool
    ensures { result ≡ valid given }
{
    let held = given.sets;
    sets::is_within(held.effective, held.permitted)
        & ambient_is_held(held)
        & has_no_bit_above_40(held)
        & ids_are_in_range(given.uids)
        & ids_are_in_range(given.gids)
        & (given.securebits <= LARGEST_SECUREBITS)
}

fn ambient_is_held(held: Sets) -> bool
    ensures { result ≡ ambient_held held }
{
    sets::is_within(held.ambient, held.permitted) & sets::is_within(held.ambient, held.inheritable)
}

fn has_no_bit_above_40(held: Sets) -> bool
    ensures { result ≡ no_bit_above40 held }
{
    sets::is_within(held.permitted, sets::FULL)
        & sets::is_within(held.inheritable, sets::FULL)
        & sets::is_within(held.effective, sets::FULL)
        & sets::is_within(held.bounding, sets::FULL)
        & sets::is_within(held.ambient, sets::FULL)
}

fn ids_are_in_range(ids: Ids) -> bool
    ensures { result ≡ ids_in_range ids }
{
    (ids.real <= LARGEST_ID)
        & (ids.effective <= LARGEST_ID)
        & (ids.saved <= LARGEST_ID)
        & (ids.filesystem <= LARGEST_ID)
}
