//! Tables of cases, as they stand in the standard input of a program: each with what it is to answer.
//!
//! The input is parts, each with a heading `== KIND TITLE`, and below it a case a line: the case, ` => `, and its answer. A line
//! without any text and one that begins with `# ` are passed over. In a case and in an answer `%n` stands for a line's end,
//! `%HH` for the byte with these hexadecimal digits, in capitals, and `%*N<TEXT>` for a text N times.
#![tactic(auto)]

// A text that remembers whether there was memory for it.
mod text;
// How many cases answer as written.
mod count;
// Texts as cases write them.
mod texts;
// Bytes as hexadecimal digits.
mod hex;
// Texts with numbers in them.
mod numbered;
// The parts of the input, and what comes of each.
mod parts;

pub use count::Count;
pub use hex::{bytes_of_hex, push_hex};
pub use numbered::push_numbered;
pub use parts::{Answers, report};
pub use text::Text;
pub use texts::{bytes_of, first_word, parted};
