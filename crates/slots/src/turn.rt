// A step's turn: its answer, and what it stores in which slot. A loop that keeps the table hands a turn the use marks and the credentials of one slot.
#![tactic(auto, unfolding(crate::specs::Turn::place, crate::specs::Turn::turn_by, crate::specs::Turn::turn_of))]

ghost use Rattle.std.specs.Prelude.{◌≡◌, ◌<◌, length};
ghost use Rattle.threads.specs.Step.{step_in};
ghost use Rattle.threads.specs.Table.{lowest_free};
ghost use Rattle.threads.specs.declared.Decision.TheVariants.{Forks};
ghost use Rattle.slots.specs.Turn.{step_of, slot_step, place, keeps, turn_by, turn_of};

use crate::SLOTS;
use crate::decision::Asked;
use crate::table::lowest_free;
use codes::{DONE, INVALID_ARGUMENT, NO_SLOT, NO_THREAD};
use credentials::Credentials;
use threads::{Decision, SlotResult, Threads};

// What a step answers, and the credentials and the use mark that it stores in the slot `to`; a refusal stores what stands there. Code and cause are numbers,
// since the definition `step_in` and the statement `Slots` speak of code, cause and value as numbers, as the report has them. The three small fields stand
// together, so that no padding comes before the credentials: with some, copies of these are slow.
#[derive(Clone, Copy)]
pub struct Turn {
    pub code: u8,
    pub cause: u8,
    pub used: bool,
    pub value: u64,
    pub to: usize,
    pub credentials: Credentials,
}

// The slot of a turn, and the credentials that stand there.
#[derive(Clone, Copy)]
struct Caller {
    slot: usize,
    held: Credentials,
}

impl Caller {
    // A refusal, which stores in a slot what stands there.
    fn keeps(&self, mark: bool, code: u8) -> Turn
        ensures { result ≡ keeps self.now.slot mark self.now.held code }
    {
        Turn {
            code,
            cause: 0,
            used: mark,
            value: 0,
            to: self.slot,
            credentials: self.held,
        }
    }

    // A fork from a slot with these credentials: they go to the lowest free slot, or it is refused with 11. The marks' length stands
    // here and in `carry_out` as in `lowest_free`, which says why.
    fn fork(&self, marks: &[bool; SLOTS]) -> Turn
        requires { length marks.now ≡ 96 }
        ensures { result ≡ turn_by self.now.slot self.now.held (lowest_free marks.now) Forks }
    {
        match lowest_free(marks) {
            Some(free) => Turn {
                code: DONE,
                cause: 0,
                used: true,
                value: free as u64,
                to: free,
                credentials: self.held,
            },
            None => self.keeps(true, NO_SLOT),
        }
    }

    // The turn in a slot in use, by what its credentials decide.
    fn carry_out(&self, marks: &[bool; SLOTS], decision: Decision) -> Turn
        requires { length marks.now ≡ 96 }
        ensures { result ≡ turn_by self.now.slot self.now.held (lowest_free marks.now) decision }
    {
        match decision {
            Decision::Answered(answer) => Turn {
                code: answers::code(answer),
                cause: answers::cause(answer),
                used: true,
                value: answers::value(answer),
                to: self.slot,
                credentials: answers::after(self.held, answer),
            },
            Decision::Forks => self.fork(marks),
            Decision::Exits => Turn {
                code: DONE,
                cause: 0,
                used: false,
                value: 0,
                to: self.slot,
                credentials: self.held,
            },
        }
    }
}

// Where in a table the credentials stand that a turn in a slot is handed: in that slot, and in slot 0 for a slot above 95. Slot 0 and no Option: what is
// answered for a slot above 95 stores there what stands there, so that the loop has one way (docs/DECISIONS.md, 116).
pub fn place(slot: u64) -> usize
    ensures { (result ≡ place slot) × (result < 96) }
{
    if slot < SLOTS as u64 {
        return slot as usize;
    }
    0
}

// The turn of a step that names a slot whose credentials are held, by the use marks of all slots: refused with 22 for a slot above 95, with 3 for one that
// is not in use, then with 72, 22, 60 and 1 as the step's call is, and a fork with 11 last. Number, operands and attribute stand one by one, as in
// `calls::perform`: what is public takes them so.
pub fn take_turn(
    used: [bool; 96],
    slot: u64,
    held: Credentials,
    number: u64,
    a: u64,
    b: u64,
    c: u64,
    attribute: &[u8],
) -> Turn
    ensures { result ≡ turn_of used slot held (step_of number a b c attribute.now) }
{
    if slot >= SLOTS as u64 {
        return Caller { slot: 0, held }.keeps(used[0], INVALID_ARGUMENT);
    }
    let slot = slot as usize;
    let caller = Caller { slot, held };
    if !used[slot] {
        return caller.keeps(false, NO_THREAD);
    }
    let asked = Asked {
        number,
        a,
        b,
        c,
        attribute,
    };
    caller.carry_out(&used, asked.decide(held))
}

// A step in a table: the answer, and the table with what it stores.
pub fn step(
    table: Threads,
    slot: u64,
    number: u64,
    a: u64,
    b: u64,
    c: u64,
    attribute: &[u8],
) -> SlotResult
    ensures { result ≡ step_in table (slot_step slot number a b c attribute.now) }
{
    let at = place(slot);
    let held = table.credentials[at];
    let given = take_turn(table.used, slot, held, number, a, b, c, attribute);
    let mut next = table;
    next.credentials[given.to] = given.credentials;
    next.used[given.to] = given.used;
    SlotResult {
        code: given.code,
        cause: given.cause,
        value: given.value,
        table: next,
    }
}
