// What the credentials of the named slot decide.
#![tactic(auto, unfolding(rules::specs::Decoding::uses_one, threads::specs::Step::decided, threads::specs::Step::unless_refused))]

ghost use Rattle.std.specs.Prelude.{◌≡◌, length};
ghost use Rattle.rules.specs.Decoding.{uses_none};
ghost use Rattle.threads.specs.Step.{unless_refused, decided};
ghost use Rattle.slots.specs.Turn.{asked_step};

use credentials::Credentials;
use rules::Refusal;
use threads::Decision;

// The numbers of the two operations that are no calls of one thread.
const FORK: u64 = 30;

const EXIT: u64 = 31;

// What a step asks in the slot that it names.
#[derive(Clone, Copy)]
pub(crate) struct Asked<'a> {
    pub(crate) number: u64,
    pub(crate) a: u64,
    pub(crate) b: u64,
    pub(crate) c: u64,
    pub(crate) attribute: &'a [u8],
}

impl Asked<'_> {
    // Whether no operand and no attribute is given. `calls` has the same inside its own table of calls and hands it out to nobody.
    fn uses_none(&self) -> bool
        ensures { result ≡ uses_none self.now.a self.now.b self.now.c (length self.now.attribute.now) }
    {
        (self.a == 0) & ((self.b == 0) & ((self.c == 0) & (self.attribute.len() == 0)))
    }

    // A fork or an exit, unless the credentials or the operands refuse it.
    fn unless_refused(&self, start: Credentials, done: Decision) -> Decision
        ensures { result ≡ unless_refused start (asked_step self.now) done }
    {
        if !credentials::is_valid(start) {
            return Decision::Answered(Err(Refusal::InvalidCredentials));
        }
        if !self.uses_none() {
            return Decision::Answered(Err(Refusal::InvalidArgument));
        }
        done
    }

    // What is to be done in a slot in use with these credentials: fork, exit, or what the call answers.
    pub(crate) fn decide(&self, start: Credentials) -> Decision
        ensures { result ≡ decided start (asked_step self.now) }
    {
        match self.number {
            FORK => self.unless_refused(start, Decision::Forks),
            EXIT => self.unless_refused(start, Decision::Exits),
            number => Decision::Answered(calls::perform(
                start,
                number,
                self.a,
                self.b,
                self.c,
                self.attribute,
            )),
        }
    }
}
