//! The lines of commands that are done, each with its end. They take no memory.
ghost use Rattle.std.specs.Prelude.{◌≡◌, ◌≤◌, ◌+◌, ◌++◌, length, codes, decimal};
ghost use Rattle.top_model.specs.Said.{Says, line, said_applied, said_recovered, committed, rolled_back, made, checked, phase_words, seen_words, summary_lines};

use crate::line::{Line, ROOM, push_number};
use checkpoint_cell::{Phase, Seen};
use engine_model::{Applied, Checked, Recovered};
use scenario_model::Summary;

// Words, a number and more words.
fn numbered(words: &'static [u8], number: u64, more: &'static [u8]) -> Line
    requires words { length words.now ≤ 100 }
    requires more { length more.now ≤ 100 }
    ensures { result ≡ words.now ++ decimal number ++ more.now }
{
    let mut line = Line::new();
    line.push(words);
    push_number(&mut line, number);
    line.push(more);
    line
}

fn fixed(words: &'static [u8]) -> Line
    requires { length words.now ≤ 100 }
    ensures { result ≡ words.now }
{
    let mut line = Line::new();
    line.push(words);
    line
}

/// What is said of a change: that it was applied, and until when it waits where it does.
pub fn applied_line(applied: Applied) -> Line
    ensures { Says (said_applied applied) result }
{
    match applied.deadline {
        None => fixed(b"applied\n"),
        Some(deadline) => numbered(b"applied, waiting until ", deadline, b"\n"),
    }
}

/// What is said of a change that was ended.
pub fn committed_line() -> Line
    ensures { Says committed result }
{
    fixed(b"committed\n")
}

/// What is said of a change that was taken back.
pub fn rolled_back_line() -> Line
    ensures { Says rolled_back result }
{
    fixed(b"rolled back\n")
}

/// What is said of a recovery.
pub fn recovered_line(recovered: Recovered) -> Line
    ensures { Says (said_recovered recovered) result }
{
    match recovered {
        Recovered::Nothing => fixed(b"nothing to recover\n"),
        Recovered::Waiting { deadline } => numbered(b"waiting until ", deadline, b"\n"),
        Recovered::Restored => fixed(b"restored\n"),
    }
}

/// What is said of a first network of so many links.
pub fn made_line(count: u64) -> Line
    ensures { Says (made count) result }
{
    numbered(b"made ", count, b" links\n")
}

// Appends a word and a number.
fn push_count(lines: &mut Line, word: &'static [u8], number: u64)
    requires { length lines.old + length word.now + 40 ≤ ROOM }
    ensures added { lines.new ≡ lines.old ++ word.now ++ decimal number }
    ensures long { length lines.new ≤ length lines.old + length word.now + 40 }
{
    lines.push(word);
    push_number(lines, number);
}

/// What is said of a workload: its links, the calls of both changes, and the sums of its VLAN ids and of its metrics.
pub fn summary_lines(summary: &Summary) -> Line
    ensures { result ≡ summary_lines summary.now }
{
    let mut lines = Line::new();
    push_count(&mut lines, b"links ", summary.links as u64);
    push_count(&mut lines, b"\ncalls ", summary.first_calls as u64);
    push_count(&mut lines, b" ", summary.second_calls as u64);
    push_count(&mut lines, b"\nids ", summary.ids);
    push_count(&mut lines, b"\nmetrics ", summary.metrics);
    lines.push(b"\n");
    lines
}

// Appends the word of a phase.
fn push_phase(line: &mut Line, phase: Phase)
    requires { length line.old + 8 ≤ ROOM }
    ensures added { line.new ≡ line.old ++ phase_words phase }
    ensures long { length line.new ≤ length line.old + 8 }
{
    match phase {
        Phase::Applying => line.push(b"applying"),
        Phase::Waiting => line.push(b"waiting"),
    }
}

// Appends what is seen of a checkpoint.
fn push_seen(line: &mut Line, seen: Seen)
    requires { length line.old + 106 ≤ ROOM }
    ensures added { line.new ≡ line.old ++ seen_words seen }
    ensures long { length line.new ≤ length line.old + 106 }
{
    match seen {
        Seen::Empty => line.push(b"none"),
        Seen::Set {
            phase,
            made,
            deadline,
        } => {
            push_phase(line, phase);
            line.push(b", made ");
            push_number(line, made);
            line.push(b", deadline ");
            push_number(line, deadline);
        }
    }
}

/// What is said of a check: how many links the network has, and what the checkpoint is.
pub fn checked_line(found: Checked) -> Line
    ensures { Says (checked found) result }
{
    let mut line = Line::new();
    line.push(b"kernel ");
    push_number(&mut line, found.links as u64);
    line.push(b" links, checkpoint ");
    push_seen(&mut line, found.cell);
    line.push(b"\n");
    line
}
