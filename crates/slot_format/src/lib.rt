// The text format of slot plans and their reports: the definitions in specs/.
//
// There are no functions: the crate `plan` has the code that reads and writes this format. What comes back for a slot plan has the types of `format`. The
// crate assumes nothing.
#![tactic(auto)]
