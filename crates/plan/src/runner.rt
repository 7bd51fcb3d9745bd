// The steps, one after the other, and the plan as a whole, of either kind.
ghost use Rattle.std.specs.Prelude.{◌≡◌, ◌≤◌, [], length, drop};
ghost use Rattle.credentials.specs.Validity.{valid};
ghost use Rattle.format.specs.Line.{below, read};
ghost use Rattle.format.specs.Report.{verdict, outcome, buffer};
ghost use Rattle.format.specs.Sheet.{read_front};
ghost use Rattle.slot_format.specs.SlotReport.{slot_verdict};
ghost use Rattle.plan.specs.Inside.{EndsIn, ran_by, seen_steps, verdict_by};

use crate::report::write_report;
use crate::state::{State, StepAnswer};
use crate::tables::{Tables, both_tables};
use crate::{MOST_STEPS, SHEET_LINES};
use arrayvec::ArrayVec;
use credentials::Credentials;
use format::PlanError;
use line_reader::{Fault, Place};
use sheet_reader::Front;
use threads::Threads;

// The steps from a place to the end of the text, taken in the state one after the other, and what they answer; or the fault.
fn run_steps<S: State>(
    text: &[u8],
    first: Place,
    state: &mut S,
    answers: &mut ArrayVec<StepAnswer, MOST_STEPS>,
    tables: &Tables,
) -> Result<(), Fault>
    requires { (answers.old.items ≡ []) × (first.lines ≤ 15) }
    ensures { seen_steps result state.new answers.new.items ≡ below first.lines (ran_by S.kind 256 state.old (drop first.at text.now)) }
{
    let mut place = first;
    // A `while`: where the next step begins is what the step's reader answers.
    while place.at < text.len() {
        if answers.is_full() {
            return Err(Fault {
                line: place.lines + 1,
            });
        }
        let (answer, next) = state.take_step(text, place, tables)?;
        answers.push(answer);
        place = next;
    }
    Ok(())
}

// The plan's report in the buffer, or a refusal that leaves it as it was.
pub fn run_plan(plan: &[u8], report: &mut [u8]) -> Result<u32, PlanError>
    ensures { (result ≡ outcome (verdict plan.now) (length report.old)) × (report.new ≡ buffer (verdict plan.now) report.old) }
{
    run::<Credentials>(plan, report)
}

// The slot plan's report in the buffer, or a refusal that leaves it as it was.
pub fn run_slot_plan(plan: &[u8], report: &mut [u8]) -> Result<u32, PlanError>
    ensures { (result ≡ outcome (slot_verdict plan.now) (length report.old)) × (report.new ≡ buffer (slot_verdict plan.now) report.old) }
{
    run::<Threads>(plan, report)
}

// A plan of either kind.
fn run<S: State>(plan: &[u8], report: &mut [u8]) -> Result<u32, PlanError>
    requires { EndsIn S.kind S.Sound }
    ensures { (result ≡ outcome (verdict_by S.kind plan.now) (length report.old)) × (report.new ≡ buffer (verdict_by S.kind plan.now) report.old) }
{
    let tables = both_tables();
    let front = sheet_reader::read_front(plan, &tables.reading)?;
    run_from::<S>(plan, front, report, &tables)
}

// A plan that begins with this sheet: a fault further on comes before a start that is not valid. It is a function of its own, since the room for the answers
// is cleared where a function begins, also for a plan that is refused at its sheet.
fn run_from<S: State>(
    plan: &[u8],
    front: Front,
    report: &mut [u8],
    tables: &Tables,
) -> Result<u32, PlanError>
    requires { (read_front plan.now ≡ read front.credentials (drop front.end plan.now)) × (valid front.credentials ≡ front.is_valid) × EndsIn S.kind S.Sound }
    ensures { (result ≡ outcome (verdict_by S.kind plan.now) (length report.old)) × (report.new ≡ buffer (verdict_by S.kind plan.now) report.old) }
{
    let mut state = S::at_start(front.credentials);
    let mut answers = ArrayVec::new();
    let first = Place {
        at: front.end,
        lines: SHEET_LINES,
    };
    run_steps(plan, first, &mut state, &mut answers, tables)?;
    if !front.is_valid {
        return Err(PlanError::Invalid);
    }
    write_report(report, &answers, &state, tables)
}
