//! Expressions as they are read.

use base_model::{Items, Str};

/// What a reference names: a capture, and the keys that lead to a tree in the capture's value.
#[derive(Drop)]
pub struct Reference {
    pub name: Str,
    /// At least one key.
    pub path: Items<Str>,
}

/// A value that is written out.
pub enum Constant {
    Text(Str),
    Int(i128),
    Bool(bool),
}

// By hand, so that a proof sees one call where one is dropped, and not a step for each part.
impl Drop for Constant {
    fn drop(self) {
        match self {
            Constant::Text(_) | Constant::Int(_) | Constant::Bool(_) => {}
        }
    }
}

/// What follows the sign of a step.
pub enum Operand {
    Constant(Constant),
    /// The string, number or boolean to which a reference leads.
    Refers(Reference),
}

// By hand, so that a proof sees one call where one is dropped, and not a step for each part.
impl Drop for Operand {
    fn drop(self) {
        match self {
            Operand::Constant(_) | Operand::Refers(_) => {}
        }
    }
}

/// What a step does with the elements of a list.
#[derive(Clone, Copy)]
pub enum Verb {
    /// `==` keeps those that match.
    Keep,
    /// `:=` sets a value in each.
    Set,
}

/// One step, as in `interfaces.name == "eth1"`.
pub struct Step {
    /// At least one key.
    pub path: Items<Str>,
    pub verb: Verb,
    pub operand: Operand,
}

// By hand, so that a proof sees one call where one is dropped, and not a step for each part.
impl Drop for Step {
    fn drop(self) {
        let Step {
            path: _,
            verb: _,
            operand: _,
        } = self;
    }
}

/// Steps, each of which works on what the one before it gives.
pub struct Expression {
    /// The capture on whose value the first step works, where it isn't the running state.
    pub start: Option<Str>,
    /// At least one step where there is no start.
    pub steps: Items<Step>,
}

// By hand, so that a proof sees one call where one is dropped, and not a step for each part.
impl Drop for Expression {
    fn drop(self) {
        let Expression { start: _, steps: _ } = self;
    }
}
