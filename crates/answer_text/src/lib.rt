//! How each answer of a command is told: its words, the notes of its document, and what of them goes to which sink.
#![tactic(auto)]

// A line of text that takes no memory.
mod line;
// The words of what an answer carries.
mod words;
// The lines of errors.
mod errors;
// The lines of commands that are done.
mod done;
// The texts that take memory: notes, printed states and plans.
mod texts;
// One text to one sink.
mod writing;
// The error line of each cause, written to a sink.
mod refusals;
// An answer told to two sinks.
mod telling;
// The status lines of a script.
mod status;

pub use done::{
    applied_line, checked_line, committed_line, made_line, recovered_line, rolled_back_line,
    summary_lines,
};
pub use line::{Line, ROOM, push_number};
pub use refusals::write_error;
pub use status::write_status;
pub use telling::{tell_done, tell_refused};
pub use texts::{call_text, note_text, shown_text};
pub use writing::write_text;
