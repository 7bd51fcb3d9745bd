// Cases that are run and compared, beside those that are proved. Standard input holds them, a row each; each is printed as it stands, and
// below it what comes back. The file stdout has what the paper gives for each, worked out from it and not from this program
// (docs/VECTORS.md).
//
// A row is fields `key=value` or `key=value,value,..`, apart by spaces. Its first letter says what it is: `#` a remark, which is printed
// and no more; `r` an attribute to be read; `w` one to be written; `t` a text in names to be read, up to the end of the line; `n` sets to be
// written in names; `v` credentials, whether they are valid; `s` a step in a slot of a table of threads; else credentials and a call.
#![tactic(auto)]

mod attributes;
mod fields;
mod named;
mod output;
mod steps;
mod tables;
mod thread;

use std::io;

// How many bytes of rows are read at most.
const LARGEST_INPUT: usize = 262144;

fn main(rt: HostRuntime) -> io::Result<()> {
    let mut text = [0u8; LARGEST_INPUT];
    let size = input::read_full(&mut rt.reader(), &mut text)?;
    show_lines(&rt, &text[0..size])
}

fn show_lines(rt: &impl Print, text: &[u8]) -> io::Result<()> {
    for line in text.split_inclusive(|b| *b == b'\n') {
        show_line(rt, line.strip_suffix(b"\n").unwrap_or(line))?;
    }
    Ok(())
}

fn show_line(rt: &impl Print, line: &[u8]) -> io::Result<()> {
    output::text(rt, line)?;
    output::text(rt, b"\n")?;
    match line.first().copied().unwrap_or(b'#') {
        b'#' => Ok(()),
        b'n' => named::show_written(rt, line),
        b'r' => attributes::show_reading(rt, line),
        b's' => steps::show_step(rt, line),
        b't' => named::show_text(rt, line),
        b'w' => attributes::show_writing(rt, line),
        b'v' => thread::show_validity(rt, line),
        _ => thread::show_call(rt, line),
    }
}
