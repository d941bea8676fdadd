//! The error line of each cause, written to a sink. It takes no memory: a path and names are written piece by piece.
ghost use Rattle.std.specs.Prelude.{◌≡◌, ◌≤◌, ◌++◌, length, codes};
ghost use Rattle.top_model.specs.Texts.{error, error_line, at_path, spaced, json_words, yaml_words, schema_words, policy_words};
ghost use Rattle.top_model.specs.declared.report.Cause.TheVariants.{DocRefused};
ghost use Rattle.answer_text.specs.Writing.{Writes};

use crate::errors::{
    call_error, damaged_error, error, kernel_error, left_error, merge_error, numbered_error,
    timed_error,
};
use crate::line::Line;
use crate::writing::{write_line, write_names, write_path, write_text};
use base_model::Path;
use doc_tree::JsonFault;
use host_core::{Failed, Sink};
use net_model::Name;
use policy_model::PolicyFault;
use top_model::{Cause, DocFault};
use tree_schema::SchemaFault;
use yaml_read::YamlFault;

fn path_start(name: &'static [u8]) -> Line
    requires { length name.now ≤ 100 }
    ensures { result ≡ codes "error: document: " ++ name.now ++ codes " at " }
{
    let mut line = Line::new();
    line.push(b"error: document: ");
    line.push(name);
    line.push(b" at ");
    line
}

// A fault of a document at a path.
fn write_at_path<W: Sink>(name: &'static [u8], path: &Path, err: &mut W) -> Result<(), Failed>
    requires { length name.now ≤ 100 }
    ensures { Writes W.tells (error (codes "document: " ++ at_path name.now path.now)) (W.told err.old) (W.told err.new) result }
{
    write_line(&path_start(name), err)?;
    write_path(path.steps.items(), err)?;
    write_text(b"\n", err)
}

fn write_json_fault<W: Sink>(fault: &JsonFault, err: &mut W) -> Result<(), Failed>
    ensures { Writes W.tells (error (codes "document: " ++ json_words fault.now)) (W.told err.old) (W.told err.new) result }
{
    match fault {
        JsonFault::NotJson => write_text(b"error: document: NotJson\n", err),
        JsonFault::NotWhole(path) => write_at_path(b"NotWhole", path, err),
        JsonFault::TooDeep => write_text(b"error: document: TooDeep\n", err),
        JsonFault::TooLarge => write_text(b"error: document: TooLarge\n", err),
        JsonFault::OutOfMemory => write_text(b"error: document: \n", err),
    }
}

fn yaml_line(fault: YamlFault) -> Line
    ensures { result ≡ error (codes "document: " ++ yaml_words fault) }
{
    match fault {
        YamlFault::NotUtf8(place) => numbered_error(b"document: NotUtf8 at byte ", place),
        YamlFault::Unsupported(line) => numbered_error(b"document: Unsupported at line ", line),
        YamlFault::Malformed(line) => numbered_error(b"document: Malformed at line ", line),
        YamlFault::DuplicateKey(line) => numbered_error(b"document: DuplicateKey at line ", line),
        YamlFault::TooDeep(line) => numbered_error(b"document: TooDeep at line ", line),
        YamlFault::TooLarge => error(b"document: TooLarge"),
        YamlFault::OutOfMemory => error(b"document: "),
    }
}

fn write_schema_fault<W: Sink>(fault: &SchemaFault, err: &mut W) -> Result<(), Failed>
    ensures { Writes W.tells (error (codes "document: " ++ schema_words fault.now)) (W.told err.old) (W.told err.new) result }
{
    match fault {
        SchemaFault::UnknownKey(path) => write_at_path(b"UnknownKey", path, err),
        SchemaFault::WrongType(path) => write_at_path(b"WrongType", path, err),
        SchemaFault::OutOfRange(path) => write_at_path(b"OutOfRange", path, err),
        SchemaFault::Missing(path) => write_at_path(b"Missing", path, err),
        SchemaFault::Unsupported(path) => write_at_path(b"Unsupported", path, err),
        SchemaFault::OutOfMemory => write_text(b"error: document: \n", err),
    }
}

fn write_policy_fault<W: Sink>(fault: &PolicyFault, err: &mut W) -> Result<(), Failed>
    ensures { Writes W.tells (error (codes "document: " ++ policy_words fault.now)) (W.told err.old) (W.told err.new) result }
{
    match fault {
        PolicyFault::WrongShape(path) => write_at_path(b"WrongShape", path, err),
        PolicyFault::BadExpression(path) => write_at_path(b"BadExpression", path, err),
        PolicyFault::UnknownCapture(path) => write_at_path(b"UnknownCapture", path, err),
        PolicyFault::CaptureCycle(path) => write_at_path(b"CaptureCycle", path, err),
        PolicyFault::NoValue(path) => write_at_path(b"NoValue", path, err),
        PolicyFault::TooDeep => write_text(b"error: document: TooDeep\n", err),
        PolicyFault::TooLarge => write_text(b"error: document: TooLarge\n", err),
        PolicyFault::OutOfMemory => write_text(b"error: document: \n", err),
    }
}

fn write_document_fault<W: Sink>(fault: &DocFault, err: &mut W) -> Result<(), Failed>
    ensures { Writes W.tells (error_line (DocRefused fault.now)) (W.told err.old) (W.told err.new) result }
{
    match fault {
        DocFault::Json(fault) => write_json_fault(fault, err),
        DocFault::Yaml(fault) => write_line(&yaml_line(*fault), err),
        DocFault::Schema(fault) => write_schema_fault(fault, err),
        DocFault::Policy(fault) => write_policy_fault(fault, err),
    }
}

fn write_other_devices<W: Sink>(names: &[Name], err: &mut W) -> Result<(), Failed>
    ensures { Writes W.tells (error (codes "hardware differs: " ++ spaced names.now)) (W.told err.old) (W.told err.new) result }
{
    write_text(b"error: hardware differs: ", err)?;
    write_names(names, err)?;
    write_text(b"\n", err)
}

/// Writes the error line of a cause: nothing where it is done, where a sink failed, or where a rollout was halted. It takes no
/// memory.
pub fn write_error<W: Sink>(cause: &Cause, err: &mut W) -> Result<(), Failed>
    ensures { Writes W.tells (error_line cause.now) (W.told err.old) (W.told err.new) result }
{
    match cause {
        Cause::Done | Cause::WriteFault(_) | Cause::Halted(_) => Ok(()),
        Cause::DocRefused(fault) => write_document_fault(fault, err),
        Cause::MergeRefused(refused) => write_line(&merge_error(refused), err),
        Cause::Usage => write_text(b"error: usage: nmstatectl [--state DIR] COMMAND\n", err),
        Cause::BadLine(line) => write_line(&numbered_error(b"script line ", *line), err),
        Cause::BatchLine(line) => write_line(&numbered_error(b"batch line ", *line), err),
        Cause::BatchLarge => write_text(b"error: batch too large\n", err),
        Cause::CallRefused(call, number) => write_line(&call_error(*call, *number), err),
        Cause::FolderFault => write_text(b"error: folder fault\n", err),
        Cause::Pending(deadline) => write_line(&numbered_error(b"pending until ", *deadline), err),
        Cause::NoCheckpoint => write_text(b"error: no checkpoint\n", err),
        Cause::Unfinished(since, deadline) => {
            write_line(&timed_error(b"unfinished change, ", *since, *deadline), err)
        }
        Cause::Expired(since, deadline) => {
            write_line(&timed_error(b"expired change, ", *since, *deadline), err)
        }
        Cause::Exists => write_text(b"error: state exists\n", err),
        Cause::NoSuchName => write_text(b"error: no such file\n", err),
        Cause::ReadFault => write_text(b"error: input not read\n", err),
        Cause::HostFault(left) => write_line(&left_error(b"host fault, ", *left), err),
        Cause::InDoubt => write_text(b"error: end of the checkpoint in doubt\n", err),
        Cause::KernelRefused(number, call, left) => {
            write_line(&kernel_error(*number, *call, *left), err)
        }
        Cause::NotVerified(_, left) => write_line(&left_error(b"not verified, ", *left), err),
        Cause::Damaged(area) => write_line(&damaged_error(*area), err),
        Cause::HardwareDiffers(names) => write_other_devices(names.items(), err),
        Cause::OutOfMemory => write_text(b"error: out of memory\n", err),
    }
}
