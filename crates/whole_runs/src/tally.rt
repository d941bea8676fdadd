//! How many documents, lines and calls there were.

use case_table::Text;

/// How many documents there were, lines of plans, calls that these were read back as, and plans of which something differs.
#[derive(Clone, Copy)]
pub struct Tally {
    pub documents: u64,
    pub lines: u64,
    pub calls: u64,
    pub differ: u64,
}

impl Tally {
    /// No document.
    pub fn none() -> Tally {
        Tally {
            documents: 0,
            lines: 0,
            calls: 0,
            differ: 0,
        }
    }

    /// Adds those of another.
    pub fn add(&mut self, other: Tally) {
        self.documents = self.documents.saturating_add(other.documents);
        self.lines = self.lines.saturating_add(other.lines);
        self.calls = self.calls.saturating_add(other.calls);
        self.differ = self.differ.saturating_add(other.differ);
    }

    /// Pushes a line with the counts under a title.
    pub fn push(self, title: &str, out: &mut Text) {
        out.push_str(title);
        out.push_str(": ");
        out.push_count(self.documents, " documents, ");
        out.push_count(self.lines, " lines, read back as ");
        out.push_count(self.calls, " calls, ");
        out.push_count(self.differ, " plans differ\n");
    }
}
