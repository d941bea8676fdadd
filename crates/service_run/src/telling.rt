//! What a service says of its documents. After a write that fails nothing more is written.
ghost use Rattle.std.specs.Prelude.{◌≡◌, ◌++◌, false, true};
ghost use Rattle.top_model.specs.Said.{line};
ghost use Rattle.top_model.specs.Texts.{error_line};
ghost use Rattle.answer_text.specs.Writing.{Writes};
ghost use Rattle.service_run.specs.Documents.{applied_line, at_line};
ghost use Rattle.top_model.specs.declared.report.Cause.TheVariants.{Done};
ghost use Rattle.service_run.specs.Telling.{Speaks, Tells, WritesBoth, sinks, told_as};

use answer_text::tell_refused;
use host_core::{Failed, Sink};
use net_model::Domain;
use top_model::{Cause, Report};

/// The status of a fault of a sink.
const WRITE_FAULT: u8 = 7;

// Writes a text. An empty one needs no write.
fn write_text<W: Sink>(text: &[u8], sink: &mut W) -> Result<(), Failed>
    ensures { Writes W.tells text.now (W.told sink.old) (W.told sink.new) result }
{
    if text.is_empty() {
        return Ok(());
    }
    sink.write(text)
}

// Writes words and a name.
fn write_named<W: Sink>(words: &[u8], name: &Domain, sink: &mut W) -> Result<(), Failed>
    ensures { Writes W.tells (words.now ++ name.now) (W.told sink.old) (W.told sink.new) result }
{
    write_text(words, sink)?;
    write_text(name.as_bytes(), sink)
}

// Writes words and a name as a line.
fn write_line<W: Sink>(words: &[u8], name: &Domain, sink: &mut W) -> Result<(), Failed>
    ensures { Writes W.tells (line (words.now ++ name.now)) (W.told sink.old) (W.told sink.new) result }
{
    write_named(words, name, sink)?;
    write_text(b"\n", sink)
}

// Writes the notes of a document that was applied, and that it was.
fn write_applied<W: Sink>(
    notes: &[u8],
    name: &Domain,
    out: &mut W,
    err: &mut W,
) -> Result<(), Failed>
    ensures { WritesBoth W.tells (applied_line name.now) notes.now
        (sinks (W.told out.old) (W.told err.old)) (sinks (W.told out.new) (W.told err.new)) result }
{
    match write_text(notes, err) {
        Ok(()) => write_line(b"applied ", name, out),
        Err(Failed) => Err(Failed),
    }
}

// Writes the notes of a document at which a service stops, and its name.
fn write_stop<W: Sink>(notes: &[u8], name: &Domain, err: &mut W) -> Result<(), Failed>
    ensures { Writes W.tells (notes.now ++ at_line name.now) (W.told err.old) (W.told err.new) result }
{
    write_text(notes, err)?;
    write_line(b"at ", name, err)
}

/// Tells that a document was applied and marked, behind its notes, where all was written so far, and answers whether all is.
pub(crate) fn tell_applied<W: Sink>(
    is_open: bool,
    notes: &[u8],
    name: &Domain,
    out: &mut W,
    err: &mut W,
) -> bool
    ensures { Speaks W.tells (applied_line name.now) notes.now
        (sinks (W.told out.old) (W.told err.old)) (sinks (W.told out.new) (W.told err.new)) is_open result }
{
    if !is_open {
        return false;
    }
    match write_applied(notes, name, out, err) {
        Ok(()) => true,
        Err(Failed) => false,
    }
}

// The report of a service that ends with this cause, where not all could be written.
fn cut_off(cause: &Cause) -> Report
    ensures { result ≡ told_as cause.now false }
{
    Report {
        status: WRITE_FAULT,
        cause: Cause::WriteFault(cause.status()),
    }
}

/// Tells why a folder gave no names.
pub(crate) fn tell_unlisted<W: Sink>(cause: Cause, out: &mut W, err: &mut W) -> Report
    ensures { Tells W.tells (error_line cause) cause (sinks (W.told out.old) (W.told err.old)) (sinks (W.told out.new) (W.told err.new)) true result }
{
    tell_refused(b"", cause, out, err)
}

/// Tells why a service stops at a document, where all was written so far: behind its notes its name and the line of the cause.
pub(crate) fn tell_stop<W: Sink>(
    is_open: bool,
    notes: &[u8],
    name: &Domain,
    cause: Cause,
    out: &mut W,
    err: &mut W,
) -> Report
    ensures { Tells W.tells ((notes.now ++ at_line name.now) ++ error_line cause) cause (sinks (W.told out.old) (W.told err.old))
        (sinks (W.told out.new) (W.told err.new)) is_open result }
{
    if !is_open {
        return cut_off(&cause);
    }
    match write_stop(notes, name, err) {
        Ok(()) => tell_refused(b"", cause, out, err),
        Err(Failed) => cut_off(&cause),
    }
}

/// The report of a service that ends, where all was written or wasn't.
pub(crate) fn finished(is_open: bool) -> Report
    ensures { result ≡ told_as Done is_open }
{
    if is_open {
        return Report {
            status: 0,
            cause: Cause::Done,
        };
    }
    cut_off(&Cause::Done)
}
