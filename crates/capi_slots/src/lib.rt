// The C interface, of slot plans: on two byte slices, a number back, as `capi` has it of plans.
//
// It is a crate of its own so that it is compiled by itself: in one object with the plan runner the calls would be a function of two callers, which is not
// inlined, and a plan would take a third longer. The crate assumes nothing.
#![tactic(auto)]

ghost use Rattle.std.specs.Prelude.{◌≡◌, length};
ghost use Rattle.format.specs.Report.{outcome, buffer, c_number};
ghost use Rattle.slot_format.specs.SlotReport.{slot_verdict};

// Runs the slot plan and writes its report at the front of the buffer: the code times 4294967296, plus the line of a fault (70) or the report's length
// (0). A slot plan that is refused leaves the buffer as it was.
#[unsafe(no_mangle)]
pub extern "C" fn urrezkalu_run_slot_plan(plan: &[u8], report: &mut [u8]) -> u64
    ensures { (result ≡ c_number (outcome (slot_verdict plan.now) (length report.old))) × (report.new ≡ buffer (slot_verdict plan.now) report.old) }
{
    format::c_number(plan::run_slot_plan(plan, report))
}
