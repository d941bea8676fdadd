//! The steps of a script, and the command that reads and runs them.
ghost use Rattle.std.specs.Prelude.{◌≡◌, ℕ, List, Some, String, [], true, false, map, string_bytes};
ghost use Rattle.std.specs.declared.alloc.Global.{Global};
ghost use Rattle.command_words.specs.Words.{command_of};
ghost use Rattle.top_model.specs.Lines.{timed_of};
ghost use Rattle.top_model.specs.Runs.{run_of};
ghost use Rattle.top_model.specs.Scripts.{Folded, EndsSteps, ScriptAnswered, file_of};
ghost use Rattle.top_model.specs.StepsRun.{world};
ghost use Rattle.top_model.specs.ScriptRuns.{ScriptRun, RanFrom};

use crate::run::run_one;
use answer_text::{tell_refused, write_status};
use base_model::Str;
use host_core::{Host, Sink, Source};
use order_reading::read_script;
use std::alloc::Global;
use top_model::{Cause, Report, Step};

/// The status of a fault of a sink.
const WRITE_FAULT: u8 = 7;

/// The status where memory runs out.
const OUT_OF_MEMORY: u8 = 8;

/// Runs the steps of a script one after another, and writes a line with its status to `out` after each.
///
/// It ends after a step in which a sink failed, without a line, and after one that ran out of memory, and answers its
/// report. Where a status line can't be written it answers `WriteFault` of that status, else `Done`.
pub fn run_script<H: Host, S: Source, W: Sink>(
    alloc: Global,
    steps: &Vec<Step>,
    host: &mut H,
    src: &mut S,
    out: &mut W,
    err: &mut W,
) -> Report
    ensures folded { Folded (map timed_of steps.now.items)
        (run_of H.Host S.Source W.Sink [] true 0 host.old host.new src.old src.new out.old out.new err.old err.new
        result) }
    ensures ends { EndsSteps result.cause }
    // Each step is answered as a command of its own; what all of them may leave, whatever fails in them and wherever they
    // are stopped, and how many of them faults can spoil.
    ensures steps { ScriptRun H.Host S.Source
        W.Sink (map timed_of steps.now.items) (world host.old src.old out.old err.old)
        (world host.new src.new out.new err.new) result }
{
    for step in steps {
        let report = run_one(alloc, &step.words, true, host, src, out, err, step.at);
        let status = report.status;
        if status == WRITE_FAULT {
            return report;
        }
        if !write_status(status, out) {
            return Report {
                status: WRITE_FAULT,
                cause: Cause::WriteFault(status),
            };
        }
        if status == OUT_OF_MEMORY {
            return report;
        }
    }
    Report {
        status: 0,
        cause: Cause::Done,
    }
}

// Runs the steps of the script in a FILE, once all its lines are read.
pub(crate) fn run_file<H: Host, S: Source, W: Sink>(
    alloc: Global,
    file: &Option<Str>,
    host: &mut H,
    src: &mut S,
    out: &mut W,
    err: &mut W,
) -> Report
    ensures { (words : List (String Global)) → file_of (command_of (map string_bytes words)) ≡ Some file.now
        → ScriptAnswered (run_of H.Host S.Source W.Sink words false 0 host.old host.new src.old src.new out.old out.new err.old err.new result)
        (RanFrom H.Host S.Source W.Sink (map string_bytes words) (world host.old src.old out.old err.old) (world host.new src.new out.new err.new) result) }
{
    match read_script(alloc, file, src) {
        Ok(steps) => run_script(alloc, &steps, host, src, out, err),
        Err(refusal) => tell_refused(b"", refusal, out, err),
    }
}
