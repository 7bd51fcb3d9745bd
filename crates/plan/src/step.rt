// One step of a plan: its five lines read, and its call performed.
ghost use Rattle.std.specs.Prelude.{◌≡◌, true};
ghost use Rattle.credentials.specs.Validity.{valid};
ghost use Rattle.line_reader.specs.Positions.{valued};
ghost use Rattle.plan.specs.Inside.{said, step_by, thread_kind};

use crate::state::{State, StepAnswer};
use crate::tables::Tables;
use credentials::Credentials;
use line_reader::{AttributeBytes, Place, Read, read_attribute, read_decimal, read_hex};

// The largest call number that can be written.
const LARGEST_CALL: u32 = 99;

// What the lines of a step say.
#[derive(Drop)]
pub(crate) struct StepLines {
    pub number: u64,
    pub a: u64,
    pub b: u64,
    pub c: u64,
    pub attribute: AttributeBytes,
}

// The step at a place, its hex digits by the table.
#[tactic(auto, unfolding(line_reader::specs::Positions::lines_at, format::specs::Step::step_kinds))]
pub(crate) fn read_step(text: &[u8], place: Place, table: &[u8; 256]) -> Read<StepLines>
    ensures { valued said result ≡ step_by table.now text.now place }
{
    let (number, place) = read_decimal(text, place, b"call=", LARGEST_CALL)?;
    let (a, place) = read_hex::<16>(text, place, b"a=", table)?;
    let (b, place) = read_hex::<16>(text, place, b"b=", table)?;
    let (c, place) = read_hex::<16>(text, place, b"c=", table)?;
    let (attribute, place) = read_attribute(text, place, b"attr=", table)?;
    let lines = StepLines {
        number,
        a,
        b,
        c,
        attribute,
    };
    Ok((lines, place))
}

// A plan's steps are taken in one thread's credentials, and the report ends with their sheet.
impl State for Credentials {
    ghost kind = { thread_kind };

    ghost Sound = { λ held. valid held ≡ true };

    fn at_start(start: Credentials) -> Credentials {
        start
    }

    fn take_step(&mut self, text: &[u8], place: Place, tables: &Tables) -> Read<StepAnswer> {
        let (step, end) = read_step(text, place, &tables.reading)?;
        let held = *self;
        let attribute = step.attribute.as_slice();
        let answer = calls::perform(held, step.number, step.a, step.b, step.c, attribute);
        let given = StepAnswer {
            code: answers::code(answer),
            cause: answers::cause(answer),
            value: answers::value(answer) as u32,
        };
        *self = answers::after(held, answer);
        Ok((given, end))
    }

    fn text_length(&self) -> usize {
        sheet_writer::sheet_length(*self)
    }

    fn write_text(&self, buf: &mut [u8], at: usize, tables: &Tables) {
        let _ = sheet_writer::write_at(buf, at, *self, &tables.writing);
    }
}
