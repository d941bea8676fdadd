//! A place in a document.
ghost use Rattle.std.specs.Prelude.{◌≡◌, ◌++◌, ◌∷◌, [], take, length, IfOk, OnOk, OnErr};
ghost use Rattle.base_model.specs.PathText.{step_text, steps_text, path_text};

use crate::{Items, OutOfMemory, Str, push_decimal};
use std::alloc::Global;

/// One step down into a document.
pub enum PathStep {
    /// To the value of a key of a map.
    Key(Str),
    /// To an item of a list, by its position from 0.
    At(u32),
}

// By hand, so that a proof sees one call where one is dropped, and not a step for each part.
impl Drop for PathStep {
    fn drop(self) {
        match self {
            PathStep::Key(_) | PathStep::At(_) => {}
        }
    }
}

/// A place in a document: the steps that lead to it from the top.
#[derive(Drop)]
pub struct Path {
    pub steps: Items<PathStep>,
}

impl PathStep {
    /// An equal step.
    pub fn copy(&self) -> Result<PathStep, OutOfMemory>
        ensures { IfOk result (λ copy. copy ≡ self.now) }
    {
        match self {
            PathStep::Key(key) => Ok(PathStep::Key(key.copy()?)),
            PathStep::At(position) => Ok(PathStep::At(*position)),
        }
    }
}

fn copy_steps(steps: &Vec<PathStep>) -> Result<Vec<PathStep>, OutOfMemory>
    ensures { IfOk result (λ copies. copies.items ≡ steps.now.items) }
{
    let mut copies = Vec::new(*steps.allocator());
    for step in steps {
        copies.push(step.copy()?)?;
    }
    Ok(copies)
}

impl Path {
    /// The place at the top of a document. It allocates nothing.
    pub fn top(alloc: Global) -> Path
        ensures { result.steps ≡ [] }
    {
        Path {
            steps: Items::of(Vec::new(alloc)),
        }
    }

    /// An equal path.
    pub fn copy(&self) -> Result<Path, OutOfMemory>
        ensures { IfOk result (λ copy. copy ≡ self.now) }
    {
        Ok(Path {
            steps: Items::of(copy_steps(self.steps.items())?),
        })
    }

    /// Goes a step further down. Where memory is refused, the path is as it was.
    pub fn push(&mut self, step: PathStep) -> Result<(), OutOfMemory>
        ensures ok { OnOk result (self.new.steps ≡ self.old.steps ++ step ∷ []) }
        ensures err { OnErr result (self.new.steps ≡ self.old.steps) }
    {
        self.steps.push(step)
    }

    /// The path that goes a step further down than this one.
    pub fn extended(&self, step: PathStep) -> Result<Path, OutOfMemory>
        ensures { IfOk result (λ path. path.steps ≡ self.now.steps ++ step ∷ []) }
    {
        let mut path = self.copy()?;
        path.push(step)?;
        Ok(path)
    }
}

// Appends a step. Where memory is refused, a part of it may follow the old bytes.
fn append_step(step: &PathStep, out: &mut Vec<u8>) -> Result<(), OutOfMemory>
    ensures ok { OnOk result (out.new.items ≡ out.old.items ++ step_text step.now) }
    ensures err { OnErr result (take (length out.old.items) out.new.items ≡ out.old.items) }
{
    match step {
        PathStep::Key(key) => {
            out.push(b'.')?;
            out.extend_from_slice(key.as_str().as_bytes())?;
        }
        PathStep::At(position) => {
            out.push(b'[')?;
            push_decimal(*position, out)?;
            out.push(b']')?;
        }
    }
    Ok(())
}

fn append_steps(steps: &[PathStep], out: &mut Vec<u8>) -> Result<(), OutOfMemory>
    ensures ok { OnOk result (out.new.items ≡ out.old.items ++ steps_text steps.now) }
    ensures err { OnErr result (take (length out.old.items) out.new.items ≡ out.old.items) }
{
    for step in steps {
        append_step(step, out)?;
    }
    Ok(())
}

fn append_path(steps: &[PathStep], out: &mut Vec<u8>) -> Result<(), OutOfMemory>
    ensures ok { OnOk result (out.new.items ≡ out.old.items ++ path_text steps.now) }
    ensures err { OnErr result (take (length out.old.items) out.new.items ≡ out.old.items) }
{
    match steps.split_first() {
        Some((PathStep::Key(key), rest)) => {
            out.extend_from_slice(key.as_str().as_bytes())?;
            append_steps(rest, out)
        }
        _ => append_steps(steps, out),
    }
}

/// Appends a path as in `interfaces[0].ipv4.address[1].ip`: a key after a dot, which the first step's has not, and a
/// position in brackets. The path of no step is the empty string. Where memory is refused, `out` is as it was.
pub fn write_path(path: &Path, out: &mut Vec<u8>) -> Result<(), OutOfMemory>
    ensures ok { OnOk result (out.new.items ≡ out.old.items ++ path_text path.now.steps) }
    ensures err { OnErr result (out.new.items ≡ out.old.items) }
{
    let length = out.len();
    match append_path(path.steps.items(), out) {
        Ok(()) => Ok(()),
        Err(_) => {
            out.truncate(length);
            Err(OutOfMemory)
        }
    }
}
