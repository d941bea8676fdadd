//! The lines of errors, each with its end.
ghost use Rattle.std.specs.Prelude.{◌≡◌, ◌≤◌, ◌++◌, length, codes, decimal};
ghost use Rattle.top_model.specs.Said.{times};
ghost use Rattle.top_model.specs.Texts.{error, error_line, left_words};
ghost use Rattle.top_model.specs.declared.report.Cause.TheVariants.{MergeRefused, CallRefused, KernelRefused, Damaged};

use crate::line::{Line, push_number};
use crate::words::{area_words, left_words, merge_words, times};
use document_model::Refused;
use engine_model::Left;

// The line of an error.
pub(crate) fn error(words: &[u8]) -> Line
    requires { length words.now ≤ 240 }
    ensures { result ≡ error words.now }
{
    let mut line = Line::new();
    line.push(b"error: ");
    line.push(words);
    line.push(b"\n");
    line
}

// Words and a number.
pub(crate) fn numbered_error(words: &'static [u8], number: u64) -> Line
    requires { length words.now ≤ 100 }
    ensures { result ≡ error (words.now ++ decimal number) }
{
    let mut line = Line::new();
    line.push(words);
    push_number(&mut line, number);
    error(line.as_bytes())
}

// The line of a change that can't be ended at this moment.
pub(crate) fn timed_error(words: &'static [u8], since: u64, deadline: u64) -> Line
    requires { length words.now ≤ 100 }
    ensures { result ≡ error (words.now ++ times since deadline) }
{
    let mut line = Line::new();
    line.push(words);
    line.push(times(since, deadline).as_bytes());
    error(line.as_bytes())
}

// Words, and what stands after the fault.
pub(crate) fn left_error(words: &'static [u8], left: Left) -> Line
    requires { length words.now ≤ 100 }
    ensures { result ≡ error (words.now ++ left_words left) }
{
    let mut line = Line::new();
    line.push(words);
    line.push(left_words(left));
    error(line.as_bytes())
}

pub(crate) fn kernel_error(number: u8, call: u64, left: Left) -> Line
    ensures { result ≡ error_line (KernelRefused number call left) }
{
    let mut line = Line::new();
    line.push(b"kernel refused ");
    push_number(&mut line, number as u64);
    line.push(b" at call ");
    push_number(&mut line, call);
    line.push(b", ");
    line.push(left_words(left));
    error(line.as_bytes())
}

pub(crate) fn call_error(call: u64, number: u8) -> Line
    ensures { result ≡ error_line (CallRefused call number) }
{
    let mut line = Line::new();
    line.push(b"call ");
    push_number(&mut line, call);
    line.push(b" refused ");
    push_number(&mut line, number as u64);
    error(line.as_bytes())
}

pub(crate) fn merge_error(refused: &Refused) -> Line
    ensures { result ≡ error_line (MergeRefused refused.now) }
{
    error(merge_words(refused).as_bytes())
}

pub(crate) fn damaged_error(area: u8) -> Line
    ensures { result ≡ error_line (Damaged area) }
{
    error(area_words(area))
}
