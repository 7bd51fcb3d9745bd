// The report: its length first, then the results' lines and what the state at the end has to say.
ghost use Rattle.std.specs.Prelude.{◌≡◌, [], ◌∷◌, ◌++◌, ◌+◌, ◌≤◌, length};
ghost use Rattle.std.proofs.lemmas.List.Edits.{sets};
ghost use Rattle.format.specs.Report.{result_kinds, report, outcome, buffer};
ghost use Rattle.line_writer.specs.Inside.{lines_put};
ghost use Rattle.plan.specs.Inside.{answers_text};

use crate::MOST_STEPS;
use crate::state::{State, StepAnswer};
use crate::tables::Tables;
use arrayvec::ArrayVec;
use format::PlanError;
use line_writer::{decimal_length, write_decimal, write_hex};

// How many hex digits a value has.
const VALUE_DIGITS: u8 = 16;

// The length of a result's three lines without the digits of its code and its cause.
const FIXED_LENGTH: usize = 36;

// How long the lines of the results are.
fn results_length(answers: &[StepAnswer]) -> usize
    requires { length answers.now ≤ 256 }
    ensures { (result ≡ length (answers_text answers.now)) × (result ≤ 20480) }
{
    let mut n: usize = 0;
    for answer in answers {
        let code = decimal_length(u64::from(answer.code));
        let cause = decimal_length(u64::from(answer.cause));
        n += FIXED_LENGTH + code + cause;
    }
    n
}

// The lines of the results at the front of buf: the position past them.
fn write_results(buf: &mut [u8], answers: &[StepAnswer], tables: &Tables) -> usize
    requires { length (answers_text answers.now) ≤ length buf.old }
    ensures { (result ≡ length (answers_text answers.now)) × (buf.new ≡ sets buf.old 0 (answers_text answers.now)) }
{
    let mut at: usize = 0;
    for answer in answers {
        at = write_result(buf, at, *answer, &tables.writing);
    }
    at
}

// The three lines of a result, by the table, into buf from the position at on, each that fits: the position past them.
fn write_result(buf: &mut [u8], at: usize, answer: StepAnswer, table: &[u8; 16]) -> usize
    ensures { (result ≡ (lines_put table.now result_kinds (answer.code ∷ answer.value ∷ answer.cause ∷ []) buf.old at).at) × (buf.new ≡ (lines_put table.now result_kinds (answer.code ∷ answer.value ∷ answer.cause ∷ []) buf.old at).buffer) }
{
    let code = u64::from(answer.code);
    let value = u64::from(answer.value);
    let cause = u64::from(answer.cause);
    let p = write_decimal(buf, at, b"code=", code);
    let q = write_hex(buf, p, b"value=", VALUE_DIGITS, value, table);
    write_decimal(buf, q, b"cause=", cause)
}

// The report of the results and the sound state last at the front of buf, or that it does not fit.
pub(crate) fn write_report<S: State>(
    buf: &mut [u8],
    answers: &ArrayVec<StepAnswer, MOST_STEPS>,
    last: &S,
    tables: &Tables,
) -> Result<u32, PlanError>
    requires { S.Sound last.now }
    ensures { (result ≡ outcome (report (answers_text answers.now.items ++ S.kind.text last.now)) (length buf.old)) × (buf.new ≡ buffer (report (answers_text answers.now.items ++ S.kind.text last.now)) buf.old) }
{
    let results = answers.as_slice();
    let size = results_length(results) + last.text_length();
    if buf.len() < size {
        return Err(PlanError::NoRoom);
    }
    let at = write_results(buf, results, tables);
    last.write_text(buf, at, tables);
    Ok(size as u32)
}
