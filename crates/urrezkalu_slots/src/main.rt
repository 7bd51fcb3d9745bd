// The program for slot plans: a slot plan on standard input, its report on standard output.
//
// A slot plan that is refused gets the two lines `code=` and `line=` instead.
#![tactic(auto)]

ghost use Rattle.std.specs.Prelude.{◌≡◌, ◌+◌, length};
ghost use Rattle.slot_format.specs.Longest.{longest_slot_plan, longest_slot_report};

use format::PlanError;
use std::io;

// Prints what the slot plan comes to: the report, of that length at the front of the buffer, or why it is refused. (In each program: a library prints nothing.)
fn print_answer(rt: &impl Print, ran: Result<u32, PlanError>, report: &[u8]) -> io::Result<()> {
    match ran {
        Ok(length) => rt.write_all(&report[..report.len().min(length as usize)]),
        Err(error) => println!(rt; "code={}\nline={}", u8::from(error), error.line()),
    }
}

// Reads the slot plan and answers it. The first buffer has one byte more than the longest slot plan: a longer text is cut there, and its fault is before
// the cut. The second is as long as the longest report.
// (Each program has a `run` of its own, for the clause on its own buffers.)
fn run(rt: &(impl Input + Print), text: &mut [u8], report: &mut [u8]) -> io::Result<()>
    requires { (length text.old ≡ longest_slot_plan + 1) × (length report.old ≡ longest_slot_report) }
{
    let size = input::read_full(&mut rt.reader(), text)?;
    let ran = plan::run_slot_plan(&text[0..size], report);
    print_answer(rt, ran, report)
}

fn main(rt: HostRuntime) -> io::Result<()> {
    let mut text = [0u8; 32797];
    let mut report = [0u8; 37911];
    run(&rt, &mut text, &mut report)
}
