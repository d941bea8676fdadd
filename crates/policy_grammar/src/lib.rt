//! That the grammar of expressions and their reading agree.
#![tactic(auto)]

// What a text is read as, against what it spells.
mod laws;

pub use laws::grammar_laws;
