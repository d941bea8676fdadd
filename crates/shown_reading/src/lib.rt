//! That what a state is printed as is read as the document that it shows.
#![tactic(auto)]

// What a printed state is read as.
mod laws;

pub use laws::reading_laws;
