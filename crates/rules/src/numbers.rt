// The paper's numbers of refusals and of causes.
ghost use Rattle.std.specs.Prelude.{◌≡◌};
ghost use Rattle.rules.specs.Answers.{cause_number, refusal_number};

use crate::{Cause, Refusal};
use codes::{INVALID_ARGUMENT, INVALID_CREDENTIALS, NOT_PERMITTED, UNREADABLE_ATTRIBUTE};

impl From<Refusal> for u8 {
    ghost from_gives = { λ why number. number ≡ refusal_number why };

    fn from(why: Refusal) -> u8 {
        match why {
            Refusal::NotPermitted(_) => NOT_PERMITTED,
            Refusal::InvalidArgument => INVALID_ARGUMENT,
            Refusal::UnreadableAttribute => UNREADABLE_ATTRIBUTE,
            Refusal::InvalidCredentials => INVALID_CREDENTIALS,
        }
    }
}

impl From<Cause> for u8 {
    ghost from_gives = { λ why number. number ≡ cause_number why };

    fn from(why: Cause) -> u8 {
        why as u8
    }
}
