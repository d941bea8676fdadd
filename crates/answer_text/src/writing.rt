//! One text to one sink. After a write that fails nothing more is written.
ghost use Rattle.std.specs.Prelude.{◌≡◌, ◌++◌, codes, decimal, flat_map};
ghost use Rattle.base_model.specs.PathText.{step_text, steps_text, path_text};
ghost use Rattle.top_model.specs.Texts.{spaced};
ghost use Rattle.answer_text.specs.Writing.{Writes};

use crate::line::{Line, push_number};
use base_model::PathStep;
use host_core::{Failed, Sink};
use net_model::Name;

/// Writes a text. An empty one needs no write, so that a sink that would fail isn't asked.
pub fn write_text<W: Sink>(text: &[u8], sink: &mut W) -> Result<(), Failed>
    ensures { Writes W.tells text.now (W.told sink.old) (W.told sink.new) result }
{
    if text.is_empty() {
        return Ok(());
    }
    sink.write(text)
}

pub(crate) fn write_line<W: Sink>(line: &Line, sink: &mut W) -> Result<(), Failed>
    ensures { Writes W.tells line.now (W.told sink.old) (W.told sink.new) result }
{
    write_text(line.as_bytes(), sink)
}

fn write_key<W: Sink>(key: &[u8], sink: &mut W) -> Result<(), Failed>
    ensures { Writes W.tells (codes "." ++ key.now) (W.told sink.old) (W.told sink.new) result }
{
    write_text(b".", sink)?;
    write_text(key, sink)
}

fn position_line(position: u32) -> Line
    ensures { result ≡ codes "[" ++ decimal position ++ codes "]" }
{
    let mut line = Line::new();
    line.push(b"[");
    push_number(&mut line, position as u64);
    line.push(b"]");
    line
}

fn write_step<W: Sink>(step: &PathStep, sink: &mut W) -> Result<(), Failed>
    ensures { Writes W.tells (step_text step.now) (W.told sink.old) (W.told sink.new) result }
{
    match step {
        PathStep::Key(key) => write_key(key.as_str().as_bytes(), sink),
        PathStep::At(position) => write_line(&position_line(*position), sink),
    }
}

fn write_steps<W: Sink>(steps: &[PathStep], sink: &mut W) -> Result<(), Failed>
    ensures { Writes W.tells (steps_text steps.now) (W.told sink.old) (W.told sink.new) result }
{
    for step in steps {
        write_step(step, sink)?;
    }
    Ok(())
}

fn write_from_key<W: Sink>(key: &[u8], rest: &[PathStep], sink: &mut W) -> Result<(), Failed>
    ensures { Writes W.tells (key.now ++ steps_text rest.now) (W.told sink.old) (W.told sink.new) result }
{
    write_text(key, sink)?;
    write_steps(rest, sink)
}

// Writes the text of a path, step by step.
pub(crate) fn write_path<W: Sink>(steps: &[PathStep], sink: &mut W) -> Result<(), Failed>
    ensures { Writes W.tells (path_text steps.now) (W.told sink.old) (W.told sink.new) result }
{
    match steps.split_first() {
        Some((PathStep::Key(key), rest)) => write_from_key(key.as_str().as_bytes(), rest, sink),
        _ => write_steps(steps, sink),
    }
}

// Appends a name behind a space.
fn spaced_name(name: &Name) -> Line
    ensures { result ≡ codes " " ++ name.now }
{
    let mut line = Line::new();
    line.push(b" ");
    line.push(name.as_bytes());
    line
}

fn write_more_names<W: Sink>(names: &[Name], sink: &mut W) -> Result<(), Failed>
    ensures { Writes W.tells (flat_map (λ name. codes " " ++ name) names.now) (W.told sink.old) (W.told sink.new) result }
{
    for name in names {
        write_line(&spaced_name(name), sink)?;
    }
    Ok(())
}

fn write_from_name<W: Sink>(first: &Name, more: &[Name], sink: &mut W) -> Result<(), Failed>
    ensures { Writes W.tells (first.now ++ flat_map (λ name. codes " " ++ name) more.now) (W.told sink.old) (W.told sink.new) result }
{
    write_text(first.as_bytes(), sink)?;
    write_more_names(more, sink)
}

// Writes names, parted by spaces.
pub(crate) fn write_names<W: Sink>(names: &[Name], sink: &mut W) -> Result<(), Failed>
    ensures { Writes W.tells (spaced names.now) (W.told sink.old) (W.told sink.new) result }
{
    match names.split_first() {
        Some((first, more)) => write_from_name(first, more, sink),
        None => Ok(()),
    }
}
