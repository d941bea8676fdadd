//! A disk in memory, step by step. It begins with `abc` in area 0 and nothing in area 1.
//!
//! Steps are parted by `; `: `write AREA AT TEXT`, `sync AREA`, `read AREA AT` of four bytes, `size AREA`, `area AREA`, `calls`,
//! `stopped AFTER PICK AREA`. A first step `fuse N` or `fuse N done` has the Nth call fail, done or not.
ghost use Rattle.std.specs.Prelude.{◌<◌};

use base_model::OutOfMemory;
use case_outside::MemoryDisk;
use case_table::{Text, first_word, parted};
use host_core::{Disk, Failed};
use host_memory::Fuse;
use std::alloc::Global;

// The last place of a read or a write, and the most bytes of a write.
const MOST: u64 = 1000;

fn number(word: &str) -> u64 {
    word.parse::<u64>().unwrap_or(0)
}

fn area_of(word: &str) -> u8
    ensures { result < 2 }
{
    if word == "0" { 0 } else { 1 }
}

fn pick_of(word: &str) -> u8
    ensures { result < 4 }
{
    match word {
        "0" => 0,
        "1" => 1,
        "2" => 2,
        _ => 3,
    }
}

fn push_done(is_done: bool, out: &mut Text) {
    out.push_str(if is_done { "done" } else { "failed" });
}

fn write(disk: &mut MemoryDisk, rest: &str, out: &mut Text) {
    let (area, rest) = first_word(rest);
    let (at, text) = first_word(rest);
    let at = number(at);
    let bytes = text.as_bytes();
    if at > MOST || bytes.len() > 1000 {
        push_done(false, out);
    } else {
        push_done(disk.write_at(area_of(area), at, bytes).is_ok(), out);
    }
}

// How many bytes a read gave, and all of the buffer.
fn push_given(given: Result<u64, Failed>, buffer: &[u8], out: &mut Text) {
    match given {
        Ok(count) => {
            out.push_count(count, " ");
            out.push_bytes(buffer);
        }
        Err(Failed) => push_done(false, out),
    }
}

fn read(disk: &mut MemoryDisk, rest: &str, out: &mut Text) {
    let (area, at) = first_word(rest);
    let at = number(at);
    let mut buffer = [7; 4];
    if at > MOST {
        push_done(false, out);
    } else {
        let given = disk.read_at(area_of(area), at, &mut buffer);
        push_given(given, &buffer, out);
    }
}

fn size(disk: &mut MemoryDisk, area: &str, out: &mut Text) {
    match disk.size(area_of(area)) {
        Ok(size) => out.push_number(size),
        Err(Failed) => push_done(false, out),
    }
}

// `AFTER PICK AREA`.
fn stopped(alloc: Global, disk: &MemoryDisk, rest: &str, out: &mut Text) {
    let (after, rest) = first_word(rest);
    let (pick, area) = first_word(rest);
    let after = number(after);
    if after > disk.calls() {
        push_done(false, out);
        return;
    }
    match disk.stopped(alloc, after, pick_of(pick)) {
        Ok(left) => out.push_bytes(left.area(area_of(area))),
        Err(OutOfMemory) => out.remember(false),
    }
}

fn push_step(alloc: Global, disk: &mut MemoryDisk, step: &str, out: &mut Text) {
    let (word, rest) = first_word(step);
    match word {
        "write" => write(disk, rest, out),
        "sync" => push_done(disk.sync(area_of(rest)).is_ok(), out),
        "read" => read(disk, rest, out),
        "size" => size(disk, rest, out),
        "area" => out.push_bytes(disk.area(area_of(rest))),
        "calls" => out.push_number(disk.calls()),
        "stopped" => stopped(alloc, disk, rest, out),
        _ => out.push_str("no such step"),
    }
}

// The fuse of a first step, if it is one, and the steps behind it.
fn fuse_of(case: &str) -> (Option<Fuse>, &str) {
    let Some(rest) = case.strip_prefix("fuse ") else {
        return (None, case);
    };
    let (fuse, steps) = parted(rest, "; ");
    let (call, how) = first_word(fuse);
    let fuse = Fuse {
        call: number(call),
        done: how == "done",
    };
    (Some(fuse), steps)
}

// The disk of a case. `out` remembers whether there was memory for it.
fn disk(alloc: Global, fuse: Option<Fuse>, out: &mut Text) -> MemoryDisk {
    let mut fuses = Vec::new(alloc);
    if let Some(fuse) = fuse {
        out.remember(fuses.push(fuse).is_ok());
    }
    let mut kernel = Vec::new(alloc);
    out.remember(kernel.extend_from_slice(b"abc").is_ok());
    MemoryDisk::new(alloc, kernel, Vec::new(alloc), fuses)
}

/// Pushes what each step gives.
pub fn push_steps(alloc: Global, case: &str, out: &mut Text) {
    let (fuse, steps) = fuse_of(case);
    let mut disk = disk(alloc, fuse, out);
    let mut between = b"".as_slice();
    for step in steps.split("; ") {
        out.push_bytes(between);
        push_step(alloc, &mut disk, step, out);
        between = b"; ";
    }
}
