// What a call that is done answers.
ghost use Rattle.std.specs.Prelude.{◌≡◌};
ghost use Rattle.rules.specs.Answers.{done};

use credentials::Credentials;
use rules::{Answer, Done};

// Done, with a value and these credentials after it.
pub(crate) fn done(value: u64, after: Credentials) -> Answer
    ensures { result ≡ done value after }
{
    Ok(Done { value, after })
}
