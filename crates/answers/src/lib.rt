// The code, the value, the cause and the state of a call's answer, as numbers for whoever prints or stores them.
//
// Every function is proved, for every argument: none has a `requires`. The crate assumes nothing.
#![tactic(auto)]

ghost use Rattle.std.specs.Prelude.{◌≡◌};
ghost use Rattle.rules.specs.Answers.{after, cause, code, value};

use codes::DONE;
use credentials::Credentials;
use rules::{Answer, Refusal};

// The code: 0 where the call is done, and else the refusal's. (A function of its own, for its own refusals and definition, as sheet_reader's `sheet_code` says.)
pub fn code(answer: Answer) -> u8
    ensures { result ≡ code answer }
{
    match answer {
        Ok(_) => DONE,
        Err(refusal) => u8::from(refusal),
    }
}

// The value: what a call that is done gives, and 0 for a refusal.
pub fn value(answer: Answer) -> u64
    ensures { result ≡ value answer }
{
    match answer {
        Ok(done) => done.value,
        Err(_) => 0,
    }
}

// The cause: why the rules refuse the call, 1 to 11, and 0 for every other answer.
pub fn cause(answer: Answer) -> u8
    ensures { result ≡ cause answer }
{
    match answer {
        Err(Refusal::NotPermitted(why)) => u8::from(why),
        _ => 0,
    }
}

// The state: what a call that is done leaves, and the credentials that were given for a refusal.
pub fn after(start: Credentials, answer: Answer) -> Credentials
    ensures { result ≡ after start answer }
{
    match answer {
        Ok(done) => done.after,
        Err(_) => start,
    }
}
