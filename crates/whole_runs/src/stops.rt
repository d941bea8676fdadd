//! Stops of a service at each call, and what a recovery and another service make of them.

use crate::files::{copied, first_marked, first_of, read_files};
use crate::hosts::is_same;
use crate::machine::{Kind, Machine, Ran};
use crate::not_done::NotDone;
use crate::services::{apply, first, fuse, serve};
use case_outside::FolderFile;
use case_table::Text;
use net_core::Net;
use std::alloc::Global;

// What a service over documents comes to.
struct Course {
    first: Machine,
    files: Vec<FolderFile>,
    // The networks that the first documents make, applied one after another: none of them, one, and so on to all.
    nets: Vec<Option<Net>>,
    // How many calls a service over so many of the documents makes.
    calls: Vec<u64>,
}

// By hand, so that a proof sees one call where one is dropped, and not a step for each part.
impl Drop for Course {
    fn drop(self) {
        let Course {
            first: _,
            files: _,
            nets: _,
            calls: _,
        } = self;
    }
}

// How many stops there were, and how many of them left what doesn't come to the same end.
#[derive(Clone, Copy)]
struct Tally {
    stops: u64,
    wrong: u64,
}

fn nets(alloc: Global, first: &Machine, files: &[FolderFile]) -> Result<Vec<Option<Net>>, NotDone> {
    let mut nets = Vec::new(alloc);
    let mut machine = first.copy(alloc)?;
    nets.push(machine.net(alloc)?)?;
    for file in files {
        machine = apply(alloc, &machine, &file.bytes)?;
        nets.push(machine.net(alloc)?)?;
    }
    Ok(nets)
}

// A service over the first so many of the files.
fn serve_first(
    alloc: Global,
    first: &Machine,
    files: &[FolderFile],
    count: u64,
) -> Result<Ran, NotDone> {
    let files = first_of(alloc, files, count, 0)?;
    let served = serve(alloc, first, files, Vec::new(alloc))?;
    if served.report.status != 0 {
        return Err(NotDone);
    }
    Ok(served)
}

fn calls(alloc: Global, first: &Machine, files: &[FolderFile]) -> Result<Vec<u64>, NotDone> {
    let mut calls = Vec::new(alloc);
    for count in 0..(files.len() as u64).saturating_add(1) {
        let served = serve_first(alloc, first, files, count)?;
        calls.push(served.machine.calls())?;
    }
    Ok(calls)
}

fn course_of(alloc: Global, kind: Kind, files: &str) -> Result<Course, NotDone> {
    let first = first(alloc, kind)?;
    let files = read_files(alloc, files)?;
    let nets = nets(alloc, &first, &files)?;
    let calls = calls(alloc, &first, &files)?;
    Ok(Course {
        first,
        files,
        nets,
        calls,
    })
}

// The lines of the files behind the first so many.
fn applied_lines(alloc: Global, files: &[FolderFile], from: u64) -> Text {
    let mut lines = Text::new(alloc);
    let mut place = 0u64;
    for file in files {
        if place >= from {
            lines.push_str("applied ");
            lines.push_bytes(file.name.as_bytes());
            lines.push_byte(b'\n');
        }
        place = place.saturating_add(1);
    }
    lines
}

impl Course {
    fn count(&self) -> u64 {
        self.files.len() as u64
    }

    // Whether the network that stands there is that of the first so many documents.
    fn is_net(&self, alloc: Global, machine: &Machine, count: u64) -> Result<bool, NotDone> {
        let net = machine.net(alloc)?;
        Ok(match self.nets.get(count as usize) {
            Some(wanted) => is_same(&net, wanted),
            None => false,
        })
    }

    // Whether a service told that it applied all documents but the first so many, marked each, and left the network of all.
    fn is_served(&self, alloc: Global, served: &Ran, marked: u64) -> Result<bool, NotDone> {
        let lines = applied_lines(alloc, &self.files, marked);
        let is_told = served.report.status == 0
            && lines.is(served.out())
            && served.err().is_empty();
        let is_marked = first_marked(served.files()) == Some(self.count());
        let is_net = self.is_net(alloc, &served.machine, self.count())?;
        Ok(is_told && is_marked && is_net)
    }

    // Whether a recovery was done, and left the network of the documents that are marked, or of one more.
    fn is_recovered(&self, alloc: Global, ran: &Ran, marked: u64) -> Result<bool, NotDone> {
        let next = marked.saturating_add(1);
        let is_net = self.is_net(alloc, &ran.machine, marked)?
            || self.is_net(alloc, &ran.machine, next)?;
        Ok(ran.report.status == 0 && is_net)
    }

    // Whether what a stop left comes to the end of all documents by a recovery and another service.
    fn ends_well(
        &self,
        alloc: Global,
        left: &Machine,
        files: Vec<FolderFile>,
    ) -> Result<bool, NotDone> {
        let Some(marked) = first_marked(&files) else {
            return Ok(false);
        };
        let ran = left.ask(alloc, "recover", b"")?;
        let served = serve(alloc, &ran.machine, files, Vec::new(alloc))?;
        Ok(self.is_recovered(alloc, &ran, marked)? && self.is_served(alloc, &served, marked)?)
    }

    // Looks at a stop behind so many calls, with each of what it may leave, and the files as it left them.
    fn look(
        &self,
        alloc: Global,
        ran: &Machine,
        after: u64,
        files: &[FolderFile],
        tally: &mut Tally,
    ) -> Result<(), NotDone> {
        for pick in 0..4u8 {
            let left = ran.stopped(alloc, after, pick)?;
            tally.stops = tally.stops.saturating_add(1);
            if !self.ends_well(alloc, &left, copied(alloc, files)?)? {
                tally.wrong = tally.wrong.saturating_add(1);
            }
        }
        Ok(())
    }

    // Whether so many files are marked at a stop behind so many calls: at the mark of a file it is marked or it isn't.
    fn may_be_marked(&self, after: u64, marked: u64) -> bool {
        let is_reached = match self.calls.get(marked as usize) {
            Some(calls) => *calls <= after,
            None => false,
        };
        let is_passed = match self.calls.get(marked.saturating_add(1) as usize) {
            Some(calls) => *calls < after,
            None => false,
        };
        is_reached && !is_passed
    }

    fn stop_at(
        &self,
        alloc: Global,
        ran: &Machine,
        after: u64,
        tally: &mut Tally,
    ) -> Result<(), NotDone> {
        for marked in 0..self.count().saturating_add(1) {
            if self.may_be_marked(after, marked) {
                let files = first_of(alloc, &self.files, self.count(), marked)?;
                self.look(alloc, ran, after, &files, tally)?;
            }
        }
        Ok(())
    }

    // A stop behind each call of a service over all documents.
    fn stop_each(&self, alloc: Global, tally: &mut Tally) -> Result<(), NotDone> {
        let served = serve_first(alloc, &self.first, &self.files, self.count())?;
        let ran = &served.machine;
        for after in 0..ran.calls().saturating_add(1) {
            self.stop_at(alloc, ran, after, tally)?;
        }
        Ok(())
    }

    // This call of the folder fails, and a stop behind the last call follows. Answers whether a service makes it.
    fn fail_at(
        &self,
        alloc: Global,
        call: u64,
        done: bool,
        tally: &mut Tally,
    ) -> Result<bool, NotDone> {
        let files = first_of(alloc, &self.files, self.count(), 0)?;
        let served = serve(alloc, &self.first, files, fuse(alloc, call, done)?)?;
        if served.report.status == 0 {
            return Ok(false);
        }
        let ran = &served.machine;
        self.look(alloc, ran, ran.calls(), served.files(), tally)?;
        Ok(true)
    }

    // Each call of the folder fails, done and not.
    fn fail_each(&self, alloc: Global, tally: &mut Tally) -> Result<(), NotDone> {
        for call in 1..MOST_CALLS {
            if !self.fail_at(alloc, call, false, tally)? {
                return Ok(());
            }
            self.fail_at(alloc, call, true, tally)?;
        }
        Err(NotDone)
    }
}

// The calls of the folder below this number are tried.
const MOST_CALLS: u64 = 100;

/// Where a service is stopped.
#[derive(Clone, Copy)]
pub enum At {
    CallsOfTheHost,
    CallsOfTheFolder,
}

fn push_tally(
    alloc: Global,
    kind: Kind,
    files: &str,
    at: At,
    out: &mut Text,
) -> Result<(), NotDone> {
    let course = course_of(alloc, kind, files)?;
    let mut tally = Tally { stops: 0, wrong: 0 };
    match at {
        At::CallsOfTheHost => course.stop_each(alloc, &mut tally)?,
        At::CallsOfTheFolder => course.fail_each(alloc, &mut tally)?,
    }
    out.push_count(tally.stops, " stops, ");
    out.push_count(tally.wrong, " wrong");
    Ok(())
}

/// `FILE ..`, documents in the order of their names: a stop behind each call of the host that a service makes, with each of what
/// it may leave, a recovery and another service; or each call of the folder fails, done and not, and a stop follows. Pushes how
/// many stops there were, and how many of them didn't come to the network and the marks of all documents.
pub fn push_stopped(alloc: Global, files: &str, at: At, out: &mut Text) -> Result<(), NotDone> {
    out.push_str("in memory ");
    push_tally(alloc, Kind::Memory, files, at, out)?;
    out.push_str("; on a disk ");
    push_tally(alloc, Kind::Disk, files, at, out)
}
