//! Kernel calls as lines in the manner of ip(8), as `ip -batch` reads lines: the line of each call, and the calls of a text
//! of lines.
#![tactic(auto)]

// What is wrong with a text, and its limit.
mod fault;
// The line of a call.
mod spelling;
// The text of a list of calls.
mod write;
// Texts cut at signs.
mod pieces;
// The values of single words.
mod values;
// The calls on links that words lead to.
mod link_words;
// The calls on addresses and routes.
mod route_words;
// The calls that stand in comments.
mod own_words;
// Lists with commas between their items.
mod lists;
// The call of a line.
mod line;
// The calls of a text.
mod read;

pub use fault::{BatchFault, MAX_BATCH_BYTES};
pub use read::read_batch;
pub use write::write_batch;
