//! What a command is expected to tell.

use crate::machine::Ran;
use crate::not_done::NotDone;
use crate::reading::number;
use case_table::{Text, first_word};
use std::alloc::Global;

// How many lines of the output begin in a way.
#[derive(Drop)]
struct Counted {
    times: u64,
    start: Text,
}

/// The status, what is written, and where the output is long how many lines of it begin in which way.
pub struct Expected {
    status: u64,
    out: Text,
    err: Text,
    counted: Vec<Counted>,
}

// By hand, so that a proof sees one call where one is dropped, and not a step for each part.
impl Drop for Expected {
    fn drop(self) {
        let Expected {
            status: _,
            out: _,
            err: _,
            counted: _,
        } = self;
    }
}

/// Pushes bytes behind a name.
pub fn push_named(name: &str, bytes: &[u8], said: &mut Text) {
    said.push_str(name);
    said.push_str(": ");
    said.push_bytes(bytes);
    said.push_byte(b'\n');
}

// Says both where they differ.
fn push_both(name: &str, wanted: &Text, given: &[u8], said: &mut Text) {
    said.remember(wanted.is_whole);
    if wanted.bytes.as_slice() != given {
        said.push_str(name);
        push_named(", expected", &wanted.bytes, said);
        push_named("found", given, said);
    }
}

fn push_numbers(name: &str, wanted: u64, found: u64, said: &mut Text) {
    if wanted != found {
        said.push_str(name);
        said.push_str(": expected ");
        said.push_count(wanted, ", found ");
        said.push_count(found, "\n");
    }
}

fn lines_beginning(bytes: &[u8], start: &str) -> u64 {
    let mut times = 0_u64;
    for line in str::from_utf8(bytes).unwrap_or("").lines() {
        if line.starts_with(start) {
            times = times.wrapping_add(1);
        }
    }
    times
}

fn push_counted(counted: &Counted, given: &[u8], said: &mut Text) {
    let start = counted.start.as_str();
    said.remember(counted.start.is_whole);
    push_numbers(start, counted.times, lines_beginning(given, start), said);
}

impl Expected {
    pub fn new(alloc: Global) -> Expected {
        Expected {
            status: 0,
            out: Text::new(alloc),
            err: Text::new(alloc),
            counted: Vec::new(alloc),
        }
    }

    // `N TEXT`.
    fn count(&mut self, alloc: Global, rest: &str) -> Result<(), NotDone> {
        let (times, start) = first_word(rest);
        let times = number(times)?;
        let start = Text::of(alloc, start);
        Ok(self.counted.push(Counted { times, start })?)
    }

    /// Takes a line of what is expected.
    pub fn take(&mut self, alloc: Global, word: &str, rest: &str) -> Result<(), NotDone> {
        match word {
            ">" => self.out.push_line(rest),
            "!" => self.err.push_line(rest),
            "=" => self.status = number(rest)?,
            _ => return self.count(alloc, rest),
        }
        Ok(())
    }

    /// Says what differs.
    pub fn compare(&self, ran: &Ran, said: &mut Text) {
        push_numbers("status", self.status, u64::from(ran.report.status), said);
        if self.counted.is_empty() {
            push_both("output", &self.out, ran.out(), said);
        }
        push_both("errors", &self.err, ran.err(), said);
        for counted in &self.counted {
            push_counted(counted, ran.out(), said);
        }
    }
}
