//! Cases, one a line.

use crate::answers::{Kind, answer};
use crate::count::Count;
use base_model::OutOfMemory;
use std::alloc::Global;

/// Compares an answer with the wanted one, and says both where they differ.
pub fn compare(
    case: &str,
    answer: &[u8],
    wanted: &str,
    out: &mut Vec<u8>,
) -> Result<Count, OutOfMemory> {
    if answer == wanted.as_bytes() {
        return Ok(Count::one(true));
    }
    out.extend_from_slice(case.as_bytes())?;
    out.extend_from_slice(b" => ")?;
    out.extend_from_slice(answer)?;
    out.extend_from_slice(b", wanted: ")?;
    out.extend_from_slice(wanted.as_bytes())?;
    out.push(b'\n')?;
    Ok(Count::one(false))
}

// The document of a case, in which a bar stands for a line's end.
fn document(alloc: Global, case: &str) -> Result<String, OutOfMemory> {
    let mut text = String::new(alloc);
    for line in case.split('|') {
        text.push_str(line)?;
        text.push_str("\n")?;
    }
    Ok(text)
}

fn read_case(
    alloc: Global,
    kind: Kind,
    line: &str,
    out: &mut Vec<u8>,
) -> Result<Count, OutOfMemory> {
    match line.split_once(" => ") {
        Some((case, wanted)) => {
            let text = document(alloc, case)?;
            let answer = answer(alloc, kind, text.as_str())?;
            compare(case, answer.as_slice(), wanted, out)
        }
        None => compare(line, b"no case", "", out),
    }
}

/// Reads the cases, and says which differ.
pub fn read_cases(
    alloc: Global,
    kind: Kind,
    body: &str,
    out: &mut Vec<u8>,
) -> Result<Count, OutOfMemory> {
    let mut count = Count::none();
    for line in body.lines() {
        count = count.with(read_case(alloc, kind, line, out)?);
    }
    Ok(count)
}
