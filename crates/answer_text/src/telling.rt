//! An answer told to two sinks: the errors first, then the output. After a write that fails nothing more is written to
//! either.
ghost use Rattle.std.specs.Prelude.{◌≡◌, ◌≤◌, ◌++◌, [], Result};
ghost use Rattle.top_model.specs.Texts.{error_line};
ghost use Rattle.top_model.specs.declared.report.Cause.TheVariants.{Done};
ghost use Rattle.answer_text.specs.Writing.{Writes};
ghost use Rattle.answer_text.specs.Speaking.{WritesBoth, Spoken};

use crate::refusals::write_error;
use crate::writing::write_text;
use host_core::{Failed, Sink};
use top_model::{Cause, Report};

/// The status of a fault of a sink.
const WRITE_FAULT: u8 = 7;

// Writes the notes, then the error line.
fn write_errors<W: Sink>(notes: &[u8], cause: &Cause, err: &mut W) -> Result<(), Failed>
    ensures { Writes W.tells (notes.now ++ error_line cause.now) (W.told err.old) (W.told err.new) result }
{
    write_text(notes, err)?;
    write_error(cause, err)
}

fn write_both<W: Sink>(
    notes: &[u8],
    cause: &Cause,
    text: &[u8],
    out: &mut W,
    err: &mut W,
) -> Result<(), Failed>
    ensures written { WritesBoth W.tells text.now (notes.now ++ error_line cause.now) (W.told out.old)
        (W.told out.new) (W.told err.old) (W.told err.new) result }
    ensures out { (W.told out.old).faults ≤ (W.told out.new).faults }
    ensures err { (W.told err.old).faults ≤ (W.told err.new).faults }
{
    write_errors(notes, cause, err)?;
    write_text(text, out)
}

fn tell<W: Sink>(notes: &[u8], cause: Cause, text: &[u8], out: &mut W, err: &mut W) -> Report
    ensures told { Spoken W.tells cause text.now (notes.now ++ error_line cause) (W.told out.old) (W.told out.new) (W.told err.old) (W.told err.new) result }
    ensures out { (W.told out.old).faults ≤ (W.told out.new).faults }
    ensures err { (W.told err.old).faults ≤ (W.told err.new).faults }
{
    let status = cause.status();
    match write_both(notes, &cause, text, out, err) {
        Ok(()) => Report { status, cause },
        Err(Failed) => Report {
            status: WRITE_FAULT,
            cause: Cause::WriteFault(status),
        },
    }
}

/// Tells that a command is done: the notes to `err`, then what it says to `out`, and makes the report. It takes no memory.
///
/// An empty text isn't written at all, so that a sink that would fail isn't asked. Where a write fails, the report is
/// `WriteFault` of the status of the answer.
pub fn tell_done<W: Sink>(notes: &[u8], text: &[u8], out: &mut W, err: &mut W) -> Report
    ensures told { Spoken W.tells Done text.now (notes.now ++ error_line Done) (W.told out.old) (W.told out.new) (W.told err.old) (W.told err.new) result }
    // No count of faults falls.
    ensures out { (W.told out.old).faults ≤ (W.told out.new).faults }
    ensures err { (W.told err.old).faults ≤ (W.told err.new).faults }
{
    tell(notes, Cause::Done, text, out, err)
}

/// Tells why a command isn't done: the notes to `err`, then the line of the cause, and makes the report. It takes no
/// memory, and writes nothing to `out`. Where a write fails, the report is `WriteFault` of the status of the cause.
pub fn tell_refused<W: Sink>(notes: &[u8], cause: Cause, out: &mut W, err: &mut W) -> Report
    ensures told { Spoken W.tells cause [] (notes.now ++ error_line cause) (W.told out.old) (W.told out.new) (W.told err.old) (W.told err.new) result }
    // No count of faults falls.
    ensures out { (W.told out.old).faults ≤ (W.told out.new).faults }
    ensures err { (W.told err.old).faults ≤ (W.told err.new).faults }
{
    tell(notes, cause, b"", out, err)
}
