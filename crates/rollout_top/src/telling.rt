//! What is told besides the lines of the rollout: the notes of the document before it, and the line of the answer behind it.
ghost use Rattle.std.specs.Prelude.{◌≡◌};
ghost use Rattle.top_model.specs.Texts.{error_line};
ghost use Rattle.top_model.specs.Told.{report_of};
ghost use Rattle.rollout_run.specs.Printing.{Prints};
ghost use Rattle.rollout_top.specs.Rollouts.{halted_cause, cause_printed};

use answer_text::{write_error, write_text};
use host_core::{Failed, Sink};
use rollout_model::Event;
use rollout_run::Printed;
use top_model::{Cause, Report};

/// The status of a fault of a sink.
const WRITE_FAULT: u8 = 7;

/// Prints the notes of the document.
pub(crate) fn print_notes<W: Sink>(notes: &[u8], err: &mut W) -> Printed
    ensures { Prints W.tells Printed.Whole notes.now (W.told err.old) (W.told err.new) result }
{
    match write_text(notes, err) {
        Ok(()) => Printed::Whole,
        Err(Failed) => Printed::Cut,
    }
}

fn print_line<W: Sink>(cause: &Cause, err: &mut W) -> Printed
    ensures { Prints W.tells Printed.Whole (error_line cause.now) (W.told err.old) (W.told err.new) result }
{
    match write_error(cause, err) {
        Ok(()) => Printed::Whole,
        Err(Failed) => Printed::Cut,
    }
}

/// Prints the line of a cause, unless a write failed before.
pub(crate) fn print_error<W: Sink>(cause: &Cause, printed: Printed, err: &mut W) -> Printed
    ensures { Prints W.tells printed (error_line cause.now) (W.told err.old) (W.told err.new) result }
{
    match printed {
        Printed::Whole => print_line(cause, err),
        Printed::Cut => Printed::Cut,
    }
}

/// Why a rollout ended as it did, by the first event that halted it.
pub(crate) fn halted_cause(halted_by: Option<Event>) -> Cause
    ensures { result ≡ halted_cause halted_by }
{
    match halted_by {
        None => Cause::Done,
        Some(Event::Starved(_)) => Cause::OutOfMemory,
        Some(event) => Cause::Halted(event),
    }
}

/// The report of a cause, where this much was printed.
pub(crate) fn report(cause: Cause, printed: Printed) -> Report
    ensures { result ≡ report_of (cause_printed printed cause) }
{
    let status = cause.status();
    match printed {
        Printed::Whole => Report { status, cause },
        Printed::Cut => Report {
            status: WRITE_FAULT,
            cause: Cause::WriteFault(status),
        },
    }
}
