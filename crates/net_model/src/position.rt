//! Where something stands in a list of a network, or where it belongs.

/// Where something stands in a strictly sorted list, or where it belongs.
#[derive(Clone, Copy)]
pub enum Position {
    /// It stands at this index.
    At(usize),
    /// It isn't there. Inserted at this index, it leaves the list sorted.
    Gap(usize),
}
