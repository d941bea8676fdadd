//! Reads tables of cases from standard input and says which answer otherwise than they say: places and lists, texts that are
//! read and printed again, networks of lists and what is asked of them, stored bytes, policies, and words, scripts and answers
//! of commands.
#![tactic(auto)]

// Addresses as they are printed.
mod addresses;
// Places in a document.
mod places;
// Places that words lead to, and lists that a struct owns.
mod bases;
// Lines in the manner of ip(8).
mod batches;
// Checkpoint areas as they read.
mod cells;
// The command of words.
mod commands;
// A disk in memory, step by step.
mod disks;
// JSON and YAML.
mod documents;
// Images.
mod images;
// Stored bytes.
mod kept;
// Links from words.
mod links;
// Lists of links, routes, rules, servers and search domains from words.
mod lists;
// Networks of lists.
mod networks;
// The order of words with what is read for it, and the steps of scripts.
mod orders;
// Documents that are policies, and why others are refused.
mod policies;
// What is asked of a network.
mod questions;
// Words of lists, and what they stand for.
mod reading;
// The lines of answers.
mod told;
// Trees on one line.
mod trees;
// What policies are worth on a running state.
mod values;
// Addresses and words of settings.
mod words;

use case_table::{Answers, Text, report};
use std::alloc::Global;
use std::io::{self, Read, Write};

// The tables.
struct Tables;

// Pushes the answer to a case of bytes, if it is one: steps, documents, lines, addresses, policies.
fn push_of_bytes(alloc: Global, kind: &str, case: &[u8], out: &mut Text) -> bool {
    if kind == "steps" || kind == "bytes" {
        orders::push_steps(alloc, case, out);
        return true;
    }
    documents::answer(alloc, kind, case, out)
        || batches::answer(alloc, kind, case, out)
        || words::answer(kind, case, out)
        || policies::answer(alloc, kind, case, out)
        || values::answer(alloc, kind, case, out)
}

// Pushes the answer to a case of text, if it is one: places and lists, networks, stored bytes, words, orders, answers.
fn push_of_text(alloc: Global, kind: &str, case: &str, out: &mut Text) -> bool {
    bases::answer(alloc, kind, case, out)
        || networks::answer(alloc, kind, case, out)
        || kept::answer(alloc, kind, case, out)
        || commands::answer(alloc, kind, case, out)
        || orders::answer(alloc, kind, case, out)
        || told::answer(alloc, kind, case, out)
}

impl Answers for Tables {
    fn answer(alloc: Global, kind: &str, case: &[u8], out: &mut Text) {
        let is_answered = push_of_bytes(alloc, kind, case, out)
            || push_of_text(alloc, kind, str::from_utf8(case).unwrap_or(""), out);
        if !is_answered {
            out.push_str("no such kind");
        }
    }
}

fn main(rt: HostRuntime) -> io::Result<()> {
    let mut input = String::new(rt.alloc());
    rt.stdin().read_to_string(&mut input)?;
    let mut out = Text::new(rt.alloc());
    report::<Tables>(rt.alloc(), input.as_str(), &mut out);
    rt.stdout()
        .write_all(out.whole().unwrap_or(b"out of memory\n".as_slice()))
}
