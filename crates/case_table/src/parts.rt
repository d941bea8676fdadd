//! The parts of the input, and what comes of each.

use crate::count::Count;
use crate::text::Text;
use crate::texts::{first_word, spelled};
use std::alloc::Global;

/// What answers the cases.
pub trait Answers {
    /// Pushes the answer to a case under a heading of this kind.
    fn answer(alloc: Global, kind: &str, case: &[u8], out: &mut Text);
}

// Says an answer where it isn't the wanted one.
fn compare(line: &str, answer: &[u8], wanted: &[u8], out: &mut Text) -> Count {
    if answer == wanted {
        return Count::one(true);
    }
    out.push_str(line);
    out.push_str("\n    answers: ");
    out.push_bytes(answer);
    out.push_byte(b'\n');
    Count::one(false)
}

fn try_case<A: Answers>(
    alloc: Global,
    kind: &str,
    line: &str,
    case: &str,
    wanted: &str,
    out: &mut Text,
) -> Count {
    let case = spelled(alloc, case);
    let wanted = spelled(alloc, wanted);
    let mut answer = Text::new(alloc);
    A::answer(alloc, kind, &case.bytes, &mut answer);
    out.remember(case.is_whole && wanted.is_whole && answer.is_whole);
    compare(line, &answer.bytes, &wanted.bytes, out)
}

fn read_case<A: Answers>(alloc: Global, kind: &str, line: &str, out: &mut Text) -> Count {
    if line.is_empty() || line.starts_with("# ") {
        return Count::none();
    }
    match line.split_once(" => ") {
        Some((case, wanted)) => try_case::<A>(alloc, kind, line, case, wanted, out),
        None => compare(line, b"no case", b"", out),
    }
}

// Pushes the counts of a part. No part has no title.
fn push_part(title: &str, part: Count, out: &mut Text) {
    if !title.is_empty() {
        part.push(title, out);
    }
}

/// Pushes a line for each case that answers otherwise, and the counts of each part and of all.
pub fn report<A: Answers>(alloc: Global, input: &str, out: &mut Text) {
    let mut kind = "";
    let mut title = "";
    let mut part = Count::none();
    let mut all = Count::none();
    for line in input.lines() {
        match line.strip_prefix("== ") {
            Some(heading) => {
                push_part(title, part, out);
                all = all.with(part);
                part = Count::none();
                (kind, title) = first_word(heading);
            }
            None => part = part.with(read_case::<A>(alloc, kind, line, out)),
        }
    }
    push_part(title, part, out);
    all.with(part).push("all", out);
}
