//! What was told of a step.

use rollout_model::Event;

/// The events of a step, in order. A start gives two, each other step one, and the finish none.
#[derive(Clone, Copy)]
pub struct Told {
    pub first: Option<Event>,
    pub second: Option<Event>,
}
