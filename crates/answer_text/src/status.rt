//! The status lines of a script.
ghost use Rattle.std.specs.Prelude.{◌≡◌, codes, decimal, ◌++◌};
ghost use Rattle.top_model.specs.Said.{line};
ghost use Rattle.top_model.specs.StepsDone.{StatusWritten};

use crate::line::{Line, push_number};
use host_core::Sink;

fn status_line(status: u8) -> Line
    ensures { result ≡ line (codes "= " ++ decimal status) }
{
    let mut words = Line::new();
    words.push(b"= ");
    push_number(&mut words, status as u64);
    words.push(b"\n");
    words
}

/// Writes the line of a step's status, and answers whether it was written. It takes no memory.
pub fn write_status<W: Sink>(status: u8, out: &mut W) -> bool
    ensures { StatusWritten W.tells status (W.told out.old) (W.told out.new) result }
{
    out.write(status_line(status).as_bytes()).is_ok()
}
