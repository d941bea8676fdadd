//! What is printed of a rollout, line by line. After a write that failed nothing more is printed.
ghost use Rattle.std.specs.Prelude.{◌≡◌, option_to_list};
ghost use Rattle.rollout_core.specs.Did.{events_of};
ghost use Rattle.rollout_run.specs.Texts.{event_lines, summary_line};
ghost use Rattle.rollout_run.specs.Printing.{Prints};

use crate::lines::{event_line, summary_line};
use answer_text::Line;
use host_core::{Failed, Sink};
use rollout_core::{Core, Event, Told};

/// How much of what there was to print so far was printed.
#[derive(Clone, Copy)]
pub enum Printed {
    /// All of it.
    Whole,
    /// A beginning of it: a write failed, and nothing is printed any more.
    Cut,
}

fn write_line<W: Sink>(line: &Line, out: &mut W) -> Printed
    ensures { Prints W.tells Printed.Whole line.now (W.told out.old) (W.told out.new) result }
{
    match out.write(line.as_bytes()) {
        Ok(()) => Printed::Whole,
        Err(Failed) => Printed::Cut,
    }
}

// Prints a line, unless a write failed before.
fn print_line<W: Sink>(line: &Line, printed: Printed, out: &mut W) -> Printed
    ensures { Prints W.tells printed line.now (W.told out.old) (W.told out.new) result }
{
    match printed {
        Printed::Whole => write_line(line, out),
        Printed::Cut => Printed::Cut,
    }
}

// Prints the line of an event, if there is one.
fn print_event<W: Sink>(event: Option<Event>, printed: Printed, out: &mut W) -> Printed
    ensures { Prints W.tells printed (event_lines (option_to_list event)) (W.told out.old) (W.told out.new) result }
{
    match event {
        Some(event) => print_line(&event_line(&event), printed, out),
        None => printed,
    }
}

/// Prints the lines of the events of a step.
pub(crate) fn print_events<W: Sink>(told: &Told, printed: Printed, out: &mut W) -> Printed
    ensures { Prints W.tells printed (event_lines (events_of told.now)) (W.told out.old) (W.told out.new) result }
{
    let printed = print_event(told.first, printed, out);
    print_event(told.second, printed, out)
}

/// Prints the line at the end.
pub(crate) fn print_summary<W: Sink>(core: &Core, printed: Printed, out: &mut W) -> Printed
    ensures { Prints W.tells printed (summary_line core.now) (W.told out.old) (W.told out.new) result }
{
    print_line(&summary_line(core), printed, out)
}
