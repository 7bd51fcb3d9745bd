// One step of a slot plan: its six lines read, and its turn taken.
ghost use Rattle.std.specs.Prelude.{◌≡◌, ◌<◌, ◌≤◌};
ghost use Rattle.slots.specs.Turn.{turn_of};
ghost use Rattle.line_reader.specs.Positions.{valued};
ghost use Rattle.plan.specs.Inside.{said, slot_said, slot_step_by, UsedValid, table_kind};

use crate::slot_report::{slots_length, write_slots};
use crate::state::{State, StepAnswer};
use crate::step::{StepLines, read_step};
use crate::tables::Tables;
use credentials::Credentials;
use line_reader::{Place, Read, read_decimal};
use slots::Turn;
use threads::Threads;

// The largest slot number that can be written.
const LARGEST_SLOT: u32 = 99;

// What the lines of a step say.
#[derive(Drop)]
pub(crate) struct SlotLines {
    pub slot: u64,
    pub step: StepLines,
}

// The step at a place, its hex digits by the table.
#[tactic(auto, unfolding(line_reader::specs::Positions::lines_at, format::specs::Step::step_kinds))]
fn read_slot_step(text: &[u8], place: Place, table: &[u8; 256]) -> Read<SlotLines>
    ensures { valued slot_said result ≡ slot_step_by table.now text.now place }
{
    let (slot, place) = read_decimal(text, place, b"slot=", LARGEST_SLOT)?;
    let (step, place) = read_step(text, place, table)?;
    Ok((SlotLines { slot, step }, place))
}

// The turn of a step that was read, by the use marks and the credentials of its slot; it is stored in one of the 96, and its value fits 32 bits.
fn turn_of(lines: SlotLines, used: [bool; 96], held: Credentials) -> Turn
    ensures { (result ≡ turn_of used lines.slot held (said lines.step)) × (result.to < 96) × (result.value ≤ 4294967295) }
{
    let step = lines.step;
    slots::take_turn(
        used,
        lines.slot,
        held,
        step.number,
        step.a,
        step.b,
        step.c,
        step.attribute.as_slice(),
    )
}

// A slot plan's steps are taken in a table of threads, and the report ends with the slots in use.
impl State for Threads {
    ghost kind = { table_kind };

    ghost Sound = { UsedValid };

    fn at_start(start: Credentials) -> Threads {
        slots::fresh(start)
    }

    fn take_step(&mut self, text: &[u8], place: Place, tables: &Tables) -> Read<StepAnswer> {
        let (lines, end) = read_slot_step(text, place, &tables.reading)?;
        let i = slots::place(lines.slot);
        let held = self.credentials[i];
        let turn = turn_of(lines, self.used, held);
        let to = turn.to;
        let stored = turn.credentials;
        self.credentials[to] = stored;
        self.used[to] = turn.used;
        let given = StepAnswer {
            code: turn.code,
            cause: turn.cause,
            value: turn.value as u32,
        };
        Ok((given, end))
    }

    fn text_length(&self) -> usize {
        slots_length(self)
    }

    fn write_text(&self, buf: &mut [u8], at: usize, tables: &Tables) {
        write_slots(buf, at, self, tables);
    }
}
