//! How far a reading has come.
ghost use Rattle.std.specs.Prelude.{◌≡◌, ◌<◌, ◌++◌, ◌∷◌, [], OnOk, IfOk};
ghost use Rattle.tree_schema.specs.Faults.{path_of};
ghost use Rattle.tree_schema.specs.Reached.{Reached, reached, entered};
ghost use Rattle.std.specs.Prelude.{List};
ghost use Rattle.base_model.specs.declared.PathStep.{PathStep};
ghost use Rattle.base_model.specs.declared.PathStep.TheVariants.{Key, At};

use base_model::{Items, OutOfMemory, Path, PathStep, Str};
use std::alloc::Global;
use std::marker::Model;

/// The most items that a list of a document has.
const MAX_ITEMS: usize = 2_147_483_647;

/// Where a reading stands, and what was read over so far. Where a reading is refused, it stands at the place.
pub struct Reader {
    alloc: Global,
    here: Vec<PathStep>,
    notes: Vec<Path>,
}

// By hand, so that a proof sees one call where one is dropped, and not a step for each part.
impl Drop for Reader {
    fn drop(self) {
        let Reader {
            alloc: _,
            here: _,
            notes: _,
        } = self;
    }
}

impl Model for Reader {
    ghost use Rattle.tree_schema.specs.Reached.{Reached};

    ghost Value = { Reached };

    ghost view = { λ r. record { here = r.here.items; notes = r.notes.items } };
}

fn copy_steps(alloc: Global, steps: &[PathStep]) -> Result<Vec<PathStep>, OutOfMemory>
    ensures { IfOk result (λ copies. copies.items ≡ steps.now) }
{
    let mut copies = Vec::new(alloc);
    for step in steps {
        copies.push(step.copy()?)?;
    }
    Ok(copies)
}

impl Reader {
    /// Stands at the top, with nothing read over.
    pub fn new(alloc: Global) -> Reader
        ensures { result ≡ reached [] [] }
    {
        Reader {
            alloc,
            here: Vec::new(alloc),
            notes: Vec::new(alloc),
        }
    }

    pub fn alloc(&self) -> Global {
        self.alloc
    }

    /// Goes down to the value of a key.
    pub fn enter_key(&mut self, key: &str) -> Result<(), OutOfMemory>
        ensures { OnOk result (self.new ≡ entered (Key key.now) self.old) }
    {
        self.here
            .push(PathStep::Key(Str::of(String::from_str(self.alloc, key)?)))?;
        Ok(())
    }

    /// Goes down to the item at a position. A position that no short list has is answered as out of memory.
    pub fn enter_item(&mut self, position: usize) -> Result<(), OutOfMemory>
        ensures here { OnOk result (self.new ≡ entered (At position) self.old) }
        ensures short { OnOk result (position < 2147483647) }
    {
        if position >= MAX_ITEMS {
            return Err(OutOfMemory);
        }
        self.here.push(PathStep::At(position as u32))?;
        Ok(())
    }

    /// Comes back up from the node that was entered last.
    pub fn leave(&mut self)
        ensures { (here : List PathStep) (step : PathStep) → self.old.here ≡ here ++ step ∷ [] → self.new ≡ reached here self.old.notes }
    {
        self.here.pop();
    }

    /// Notes that the node is read over.
    pub fn note(&mut self) -> Result<(), OutOfMemory>
        ensures { OnOk result (self.new ≡ reached self.old.here (self.old.notes ++ path_of self.old.here ∷ [])) }
    {
        let steps = copy_steps(self.alloc, &self.here)?;
        self.notes.push(Path {
            steps: Items::of(steps),
        })?;
        Ok(())
    }

    /// The place where it stands, and the notes.
    pub fn into_parts(self) -> (Path, Items<Path>)
        ensures { result ≡ (path_of self.here, self.notes) }
    {
        let Reader {
            alloc: _,
            here,
            notes,
        } = self;
        (
            Path {
                steps: Items::of(here),
            },
            Items::of(notes),
        )
    }
}
