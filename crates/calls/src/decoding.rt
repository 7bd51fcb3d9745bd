// A number and operands as a call: which of them make one, and refusal 22 for the rest.
#![tactic(auto, unfolding(rules::specs::Decoding::decode, rules::specs::Decoding::known, rules::specs::Decoding::uses_one))]

ghost use Rattle.std.specs.Prelude.{◌≡◌};
ghost use Rattle.rules.specs.Decoding.{decode};

use capabilities::sets;
use credentials::{LARGEST_ID, LARGEST_SECUREBITS, NO_ID};
use rules::Call;

// The largest capability there is.
const LARGEST_CAPABILITY: u64 = 40;

// All five of call 1's flags.
const LARGEST_FLAGS: u64 = 31;

// The call that a number and operands make, with an attribute of that many bytes, or that they make none: the number is no call's, an
// operand is out of its range, or one that the call does not use is not 0, or there is an attribute in a call other than 1.
pub(crate) fn decode(number: u64, a: u64, b: u64, c: u64, size: usize) -> Option<Call>
    ensures { result ≡ decode number a b c size }
{
    let uses_one = (b == 0) & ((c == 0) & (size == 0));
    let uses_none = (a == 0) & uses_one;
    let capability = uses_one & (a <= LARGEST_CAPABILITY);
    let two_ids = (c == 0) & (size == 0) & (a <= NO_ID) & (b <= NO_ID);
    let three_ids = (size == 0) & (a <= NO_ID) & (b <= NO_ID) & (c <= NO_ID);
    match number {
        1 => {
            let right = (a <= LARGEST_ID) & (b <= LARGEST_FLAGS) & (c <= LARGEST_ID);
            right.then_some(Call::Execve {
                owner: a,
                flags: b,
                group: c,
            })
        }
        2 => {
            let right = (size == 0)
                & sets::is_within(a, sets::FULL)
                & sets::is_within(b, sets::FULL)
                & sets::is_within(c, sets::FULL);
            right.then_some(Call::Capset {
                permitted: a,
                inheritable: b,
                effective: c,
            })
        }
        3 => capability.then_some(Call::BoundingDrop { capability: a }),
        4 => capability.then_some(Call::BoundingRead { capability: a }),
        5 => capability.then_some(Call::AmbientRaise { capability: a }),
        6 => capability.then_some(Call::AmbientLower { capability: a }),
        7 => capability.then_some(Call::AmbientIsSet { capability: a }),
        8 => uses_none.then_some(Call::AmbientClearAll),
        9 => (uses_one & (a <= LARGEST_SECUREBITS)).then_some(Call::SetSecurebits { bits: a }),
        10 => uses_none.then_some(Call::GetSecurebits),
        11 => (uses_one & (a <= 1)).then_some(Call::SetKeepCaps { on: a == 1 }),
        12 => uses_none.then_some(Call::GetKeepCaps),
        13 => (uses_one & (a == 1)).then_some(Call::SetNoNewPrivs),
        14 => uses_none.then_some(Call::GetNoNewPrivs),
        15 => (uses_one & (a <= LARGEST_ID)).then_some(Call::Setuid { id: a }),
        16 => two_ids.then_some(Call::Setreuid {
            real: a,
            effective: b,
        }),
        17 => three_ids.then_some(Call::Setresuid {
            real: a,
            effective: b,
            saved: c,
        }),
        18 => (uses_one & (a <= NO_ID)).then_some(Call::Setfsuid { id: a }),
        19 => (uses_one & (a <= LARGEST_ID)).then_some(Call::Setgid { id: a }),
        20 => two_ids.then_some(Call::Setregid {
            real: a,
            effective: b,
        }),
        21 => three_ids.then_some(Call::Setresgid {
            real: a,
            effective: b,
            saved: c,
        }),
        22 => (uses_one & (a <= NO_ID)).then_some(Call::Setfsgid { id: a }),
        _ => None,
    }
}
