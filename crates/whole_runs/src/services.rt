//! Services one after another, and what they tell and leave.

use crate::files::{copied, find, folder, read_files};
use crate::hosts::is_same;
use crate::machine::{Kind, Machine, Ran};
use crate::not_done::NotDone;
use crate::reading::number;
use crate::runs::World;
use case_outside::FolderFile;
use case_table::{Text, first_word, parted};
use host_memory::Fuse;
use net_core::Net;
use std::alloc::Global;

/// Two devices, down.
const DEVICES: &str =
    "hardware:\n- name: eth1\n  mac-address: 52:54:00:00:00:01\n- name: eth2\n  mac-address: 52:54:00:00:00:02\n";

/// A machine with the network of two devices.
pub fn first(alloc: Global, kind: Kind) -> Result<Machine, NotDone> {
    let made = Machine::bare(alloc, kind).ask(alloc, "init", DEVICES.as_bytes())?;
    Ok(made.into_machine())
}

/// A service over these files, at whose folder these calls fail.
pub fn serve(
    alloc: Global,
    machine: &Machine,
    files: Vec<FolderFile>,
    fuses: Vec<Fuse>,
) -> Result<Ran, NotDone> {
    let folder = folder(alloc, files, fuses)?;
    machine.ask_in(
        alloc,
        "service x",
        World::over(alloc, Vec::new(alloc), folder),
    )
}

/// What stands once a document is applied, where it is.
pub fn apply(alloc: Global, machine: &Machine, document: &[u8]) -> Result<Machine, NotDone> {
    let ran = machine.ask(alloc, "apply", document)?;
    if ran.report.status != 0 {
        return Err(NotDone);
    }
    Ok(ran.into_machine())
}

/// One call that fails, of this number, done or not.
pub fn fuse(alloc: Global, call: u64, done: bool) -> Result<Vec<Fuse>, NotDone> {
    Ok(Vec::from_slice(alloc, &[Fuse { call, done }])?)
}

// `ok`, `fail:N` or `done:N`.
fn fuses_of(alloc: Global, word: &str) -> Result<Vec<Fuse>, NotDone> {
    match word.split_once(':') {
        Some(("fail", call)) => fuse(alloc, number(call)?, false),
        Some(("done", call)) => fuse(alloc, number(call)?, true),
        Some(_) => Err(NotDone),
        None => Ok(Vec::new(alloc)),
    }
}

// What is written to the output and to the errors, and a status that isn't 0.
fn push_seen(ran: &Ran, out: &mut Text) {
    out.push_bytes(ran.out());
    out.push_bytes(ran.err());
    if ran.report.status != 0 {
        out.push_byte(b'[');
        out.push_count(u64::from(ran.report.status), "]\n");
    }
}

// The names of the marked files.
fn push_marked(files: &[FolderFile], out: &mut Text) {
    out.push_str("marked");
    for file in files {
        if file.marked {
            out.push_byte(b' ');
            out.push_bytes(file.name.as_bytes());
        }
    }
    out.push_byte(b'\n');
}

// A service over these files, and what it tells and marks.
fn serve_one(
    alloc: Global,
    machine: &Machine,
    files: &[FolderFile],
    word: &str,
    out: &mut Text,
) -> Result<Ran, NotDone> {
    let fuses = fuses_of(alloc, word)?;
    let ran = serve(alloc, machine, copied(alloc, files)?, fuses)?;
    push_seen(&ran, out);
    push_marked(ran.files(), out);
    Ok(ran)
}

// A service for each word, and what each tells and marks. Gives the network that then stands.
fn serve_each(
    alloc: Global,
    first: &Machine,
    files: &[FolderFile],
    words: &str,
    out: &mut Text,
) -> Result<Option<Net>, NotDone> {
    let (word, others) = first_word(words);
    let mut ran = serve_one(alloc, first, files, word, out)?;
    for word in others.split_ascii_whitespace() {
        ran = serve_one(alloc, &ran.machine, ran.files(), word, out)?;
    }
    ran.machine.net(alloc)
}

// The network that the documents of these names make, applied one after another; `none` has none of them.
fn applied(
    alloc: Global,
    first: &Machine,
    files: &[FolderFile],
    names: &str,
) -> Result<Option<Net>, NotDone> {
    if names == "none" {
        return first.net(alloc);
    }
    let mut machine = first.copy(alloc)?;
    for name in names.split_ascii_whitespace() {
        machine = apply(alloc, &machine, &find(files, name)?.bytes)?;
    }
    machine.net(alloc)
}

fn told_on(
    alloc: Global,
    kind: Kind,
    files: &str,
    runs: &str,
    names: &str,
) -> Result<Text, NotDone> {
    let files = read_files(alloc, files)?;
    let first = first(alloc, kind)?;
    let mut out = Text::new(alloc);
    let left = serve_each(alloc, &first, &files, runs, &mut out)?;
    let is_wanted = is_same(&left, &applied(alloc, &first, &files, names)?);
    out.push_str(if is_wanted { "same" } else { "other" });
    Ok(out)
}

/// `FILE ..; RUN ..; NAME ..`: a service for each RUN over these files. Pushes what each tells and marks, and whether the network
/// is then the one that the documents of these names make, applied one after another. What is told on a host over a disk follows,
/// where it is something else than in memory.
pub fn push_told(alloc: Global, case: &str, out: &mut Text) -> Result<(), NotDone> {
    let (files, rest) = parted(case, "; ");
    let (runs, names) = parted(rest, "; ");
    let memory = told_on(alloc, Kind::Memory, files, runs, names)?;
    let disk = told_on(alloc, Kind::Disk, files, runs, names)?;
    out.push_text(&memory);
    if memory.bytes != disk.bytes {
        out.push_str("\non a disk:\n");
        out.push_text(&disk);
    }
    out.remember(disk.is_whole);
    Ok(())
}
