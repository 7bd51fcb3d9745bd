// What the two kinds of plan differ in: the state that steps are taken in, how a step is read and taken, and what the report ends with.
ghost use Rattle.std.specs.Prelude.{◌≡◌, ◌≤◌, ◌+◌, length, drop, IfOk};
ghost use Rattle.std.proofs.lemmas.List.Edits.{sets};
ghost use Rattle.format.specs.Line.{below};
ghost use Rattle.plan.specs.Inside.{PlanKind, seen_step};

use crate::tables::Tables;
use credentials::Credentials;
use line_reader::{Place, Read};

// What a step answers, in numbers, as the report has them and the definitions of a step's result. The two bytes stand together, so that a list of
// answers has as little padding as it can. What a call or a fork gives fits 32 bits: an ID, securebits, a flag or a slot.
#[derive(Clone, Copy, Default)]
pub(crate) struct StepAnswer {
    pub code: u8,
    pub cause: u8,
    pub value: u32,
}

// The state that the steps of a kind of plan are taken in: credentials, or a table of threads. It stays in one place, which each step changes.
pub(crate) trait State: Drop {
    ghost kind: { PlanKind Self };

    // What holds of every state that a plan with a valid start comes to.
    ghost Sound: { Self → Type 0 };

    // The state at the start.
    fn at_start(start: Credentials) -> Self
        ensures { result ≡ kind.start start };

    // The step at a place, taken: what it answers and the place past it, or the fault.
    fn take_step(&mut self, text: &[u8], place: Place, tables: &Tables) -> Read<StepAnswer>
        requires { place.lines ≤ 65535 }
        ensures { (seen_step result self.new text.now ≡ below place.lines (kind.taken self.old (drop place.at text.now))) × IfOk result (λ r. (r.1.lines ≡ place.lines + kind.lines) × (r.1.lines ≤ place.lines + 6)) };

    // How long the report's lines of the state are.
    fn text_length(&self) -> usize
        ensures { (result ≡ length (kind.text self.now)) × (result ≤ 37440) };

    // The report's lines of a sound state into buf from the position at on.
    fn write_text(&self, buf: &mut [u8], at: usize, tables: &Tables)
        requires { Sound self.now × (at + length (kind.text self.now) ≤ length buf.old) × (at + length (kind.text self.now) ≤ 65535) }
        ensures { buf.new ≡ sets buf.old at (kind.text self.now) };
}
