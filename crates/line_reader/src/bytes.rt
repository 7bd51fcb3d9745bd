// An attribute's bytes: at most 24 of them, seen as a list.
ghost use Rattle.std.specs.Prelude.{◌≡◌, ◌≤◌, ◌-◌, ◌++◌, ℕ, List, length, take, drop, replicate};
ghost use Rattle.std.proofs.Common.{sym, ap, ◌∙◌, subst, take-append-drop, length-take-le};

use crate::MOST_ATTRIBUTE;
use std::marker::Model;

// The first bytes of an array that is 0 behind them, and how many they are: the list gives both back, so a value may be copied. (An `ArrayVec` would do as
// well, but for the copies; clauses see this one as the bare list that the definitions speak of.)
#[derive(Clone, Copy)]
pub struct AttributeBytes {
    pub(crate) bytes: [u8; 24],
    pub(crate) size: usize,
}

impl Model for AttributeBytes {
    ghost Value = { List ℕ };

    ghost view = { λ a. take a.size a.bytes };

    ghost invariant = { λ a. (a.size ≤ 24) × (length a.bytes ≡ 24) × (drop a.size a.bytes ≡ replicate (24 - a.size) 0) };

    ghost inverse = { λ l. record { bytes = l ++ replicate (24 - length l) 0; size = length l } };

    ghost inverse_ok = { λ a h.
        let size = length-take-le a.size a.bytes (subst (λ n. a.size ≤ n) (sym h.1) h.0) in
        let zeros = ap (λ n. take a.size a.bytes ++ replicate (24 - n) 0) size ∙ ap (λ r. take a.size a.bytes ++ r) (sym h.2) in
        λ i. record { bytes = (zeros ∙ take-append-drop a.size a.bytes) i; size = size i } };
}

impl AttributeBytes {
    // The bytes.
    pub fn as_slice(&self) -> &[u8]
        ensures { result.now ≡ self.now }
    {
        &self.bytes[..self.size]
    }
}
