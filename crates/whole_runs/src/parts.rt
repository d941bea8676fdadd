//! The parts of the input, and what comes of each.
//!
//! A part has a heading, a line `== TITLE`, and below it the hardware list of its machine. Then each line has documents, or
//! policies, that are applied one after another, with ` then ` between them, to a machine that has these devices alone. A line
//! without any text and one that begins with `// ` are passed over.

use crate::machine::{Kind, Machine};
use crate::not_done::NotDone;
use crate::tally::Tally;
use crate::texts::bytes_of;
use crate::trial::try_document;
use case_table::{Text, parted};
use std::alloc::Global;

fn try_each(alloc: Global, hardware: &[u8], line: &str) -> Result<Tally, NotDone> {
    let made = Machine::bare(alloc, Kind::Memory).ask(alloc, "init", hardware)?;
    let mut machine = made.into_machine();
    let mut tally = Tally::none();
    for text in line.split(" then ") {
        let document = bytes_of(alloc, text)?;
        machine = try_document(alloc, &machine, &document, &mut tally)?;
    }
    Ok(tally)
}

// Says the documents of a line where something differs.
fn read_line(alloc: Global, hardware: &[u8], line: &str, out: &mut Text) -> Result<Tally, NotDone> {
    if line.is_empty() || line.starts_with("// ") {
        return Ok(Tally::none());
    }
    let tally = try_each(alloc, hardware, line)?;
    if tally.differ > 0 {
        tally.push(line, out);
    }
    Ok(tally)
}

fn read_part(alloc: Global, title: &str, body: &str, out: &mut Text) -> Result<Tally, NotDone> {
    let (hardware, lines) = parted(body, "\n");
    let hardware = bytes_of(alloc, hardware)?;
    let mut tally = Tally::none();
    for line in lines.lines() {
        tally.add(read_line(alloc, &hardware, line, out)?);
    }
    tally.push(title, out);
    Ok(tally)
}

/// Pushes a line for each line of documents of which something differs, and the counts of each part and of all.
pub fn push_plans(alloc: Global, input: &str, out: &mut Text) -> Result<(), NotDone> {
    let mut tally = Tally::none();
    let parts = input.strip_prefix("== ").unwrap_or(input);
    for part in parts.split("\n== ") {
        if let Some((title, body)) = part.split_once('\n') {
            tally.add(read_part(alloc, title, body, out)?);
        }
    }
    tally.push("all", out);
    Ok(())
}
