//! What is told of the cases.

use crate::expected::push_named;
use crate::machine::Kind;
use case_table::Text;
use std::alloc::Global;

/// A line for each case, how many there were, and how many differ.
pub struct Told {
    lines: Text,
    count: u64,
    differ: u64,
    // What differs of the case that runs.
    said: Text,
}

// By hand, so that a proof sees one call where one is dropped, and not a step for each part.
impl Drop for Told {
    fn drop(self) {
        let Told {
            lines: _,
            count: _,
            differ: _,
            said: _,
        } = self;
    }
}

impl Told {
    pub fn new(alloc: Global) -> Told {
        Told {
            lines: Text::new(alloc),
            count: 0,
            differ: 0,
            said: Text::new(alloc),
        }
    }

    /// Notes what differs of a command, if anything does.
    pub fn note(&mut self, command: &Text, said: &Text) {
        self.said.remember(command.is_whole);
        if !said.bytes.is_empty() {
            push_named("at", &command.bytes, &mut self.said);
        }
        self.said.push_text(said);
    }

    /// Notes a line that isn't understood.
    pub fn not_understood(&mut self, line: &str) {
        push_named("not understood", line.as_bytes(), &mut self.said);
    }

    /// Tells a case. What stands before the first one, which has no name, is told where it differs.
    pub fn tell(&mut self, kind: Kind, name: &Text) {
        let is_well = self.said.bytes.is_empty();
        if is_well && name.bytes.is_empty() {
            return;
        }
        self.lines.push_str(match kind {
            Kind::Memory => "in memory: ",
            Kind::Disk => "on a disk: ",
        });
        self.lines.push_text(name);
        self.count = self.count.wrapping_add(1);
        if is_well {
            self.lines.push_str(": ok\n");
        } else {
            self.lines.push_str(": differs\n");
            self.lines.push_text(&self.said);
            self.differ = self.differ.wrapping_add(1);
            self.said.bytes.clear();
        }
    }

    /// Pushes the lines, and the counts.
    pub fn push(&self, out: &mut Text) {
        out.push_text(&self.lines);
        out.push_count(self.count, " cases, ");
        out.push_count(self.differ, " differ\n");
        out.remember(self.said.is_whole);
    }
}
