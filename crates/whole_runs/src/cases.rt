//! The lines of the cases, and what comes of each.
//!
//! A line begins with a word. Lines before the first case serve all of them.
//!
//! | line | does |
//! |---|---|
//! | `case NAME` | ends the case before it, and begins one from nothing |
//! | `also on a disk` | runs the case on a host over a disk too |
//! | `only on a disk` | runs the case on a host over a disk alone |
//! | `document NAME` | begins an input; behind it `\| LINE` adds a line, `* N TEXT` a text so many times with its number for `%`, `x HEX` bytes |
//! | `< LINE` | a line of standard input of the next command |
//! | `fail OBJECT N`, `fail OBJECT N done` | in the next command the Nth call of `host`, `source`, `out` or `err` fails, done or not |
//! | `lying` | the next command runs on a host that lies |
//! | `refuses CALL NUMBER` | the next command runs on a host that refuses its kernel call CALL with NUMBER; a line for each such call |
//! | `$ MOMENT WORDS`, `@ MOMENT WORDS` | a command, by `run_command` or `run_at` |
//! | `% MOMENT WORDS; MOMENT WORDS` | the steps of a script, by `run_script` |
//! | `> LINE`, `! LINE`, `= N` | what it writes to the output and to the errors, and its status where that isn't 0 |
//! | `~ N TEXT` | how many lines of its output begin with the text, where the output isn't given |
//! | `output NAME` | takes what the last command wrote to the output as an input |
//! | `found NAME` | the network that didn't verify is that one |
//! | `save NAME`, `from NAME` | names what stands, for later cases; takes it up |
//! | `keep NAME`, `is NAME` | names the network that stands; compares with it |
//! | `stop N PICK` | stops behind N calls of the last command |
//! | `bytes AREA HEX`, `behind AREA N HEX` | compares the bytes of an area, all of them or those from N on |
//! | `cut AREA N`, `write AREA N HEX` | cuts an area; writes bytes from N on |
//! | `stops ..`, `faults ..`, `pairs ..` | a stop behind each call, a fault at each, two faults: `MOMENT WORDS, recovered at MOMENT: STATE ..` |

use crate::expected::Expected;
use crate::hosts::is_same;
use crate::inputs::Inputs;
use crate::machine::{Kind, Machine, Ran, push_shown};
use crate::not_done::NotDone;
use crate::reading::number;
use crate::runs::{Faults, Run, step_of, steps_of};
use crate::stored::{area_of, behind, cut, overwritten};
use crate::sweeps::{Kept, find, swept};
use crate::told::Told;
use case_table::{Text, bytes_of_hex, first_word, push_hex};
use net_core::Net;
use std::alloc::Global;
use std::mem;

// What stood when it was saved under a name.
#[derive(Drop)]
struct Saved {
    name: Text,
    machine: Machine,
}

fn find_saved<'a>(all: &'a [Saved], name: &str) -> Result<&'a Saved, NotDone> {
    for saved in all {
        if saved.name.is(name.as_bytes()) {
            return Ok(saved);
        }
    }
    Err(NotDone)
}

/// The cases so far, on hosts of one kind.
pub struct Cases {
    kind: Kind,
    name: Text,
    is_left_out: bool,
    inputs: Inputs,
    faults: Faults,
    command: Text,
    // What stands, and what the last command told.
    ran: Ran,
    // Whether the last command isn't compared yet.
    is_open: bool,
    expected: Expected,
    saved: Vec<Saved>,
    kept: Vec<Kept>,
    told: Told,
}

// By hand, so that a proof sees one call where one is dropped, and not a step for each part.
impl Drop for Cases {
    fn drop(self) {
        let Cases {
            kind: _,
            name: _,
            is_left_out: _,
            inputs: _,
            faults: _,
            command: _,
            ran: _,
            is_open: _,
            expected: _,
            saved: _,
            kept: _,
            told: _,
        } = self;
    }
}

impl Cases {
    /// No case, behind what was told before.
    pub fn new(alloc: Global, kind: Kind, told: Told) -> Cases {
        Cases {
            kind,
            name: Text::new(alloc),
            is_left_out: false,
            inputs: Inputs::new(alloc),
            faults: Faults::none(alloc),
            command: Text::new(alloc),
            ran: Ran::nothing(alloc, kind),
            is_open: false,
            expected: Expected::new(alloc),
            saved: Vec::new(alloc),
            kept: Vec::new(alloc),
            told,
        }
    }

    // Compares what was seen last with what is expected of it.
    fn compare(&mut self, alloc: Global) {
        if self.is_open {
            self.is_open = false;
            let mut said = Text::new(alloc);
            self.expected.compare(&self.ran, &mut said);
            self.told.note(&self.command, &said);
        }
        self.expected = Expected::new(alloc);
    }

    fn end_case(&mut self, alloc: Global) {
        self.compare(alloc);
        if !self.is_left_out {
            self.told.tell(self.kind, &self.name);
        }
        self.inputs.end_case(self.name.bytes.is_empty());
        self.kept.clear();
        self.faults = Faults::none(alloc);
        self.ran = Ran::nothing(alloc, self.kind);
        self.is_left_out = matches!(self.kind, Kind::Disk);
    }

    /// Ends the last case, and gives what is told.
    pub fn finish(&mut self, alloc: Global) -> Told {
        self.end_case(alloc);
        mem::replace(&mut self.told, Told::new(alloc))
    }

    // Runs a command on what stands.
    fn run(&mut self, alloc: Global, run: &Run, line: &str) -> Result<(), NotDone> {
        self.command = Text::of(alloc, line);
        let faults = mem::replace(&mut self.faults, Faults::none(alloc));
        let inputs = self.inputs.given(alloc, line)?;
        self.ran = self.ran.machine.run(alloc, run, faults, inputs)?;
        self.is_open = true;
        Ok(())
    }

    fn save(&mut self, alloc: Global, name: &str) -> Result<(), NotDone> {
        let machine = self.ran.machine.copy(alloc)?;
        let name = Text::of(alloc, name);
        Ok(self.saved.push(Saved { name, machine })?)
    }

    fn take_up(&mut self, alloc: Global, name: &str) -> Result<(), NotDone> {
        self.ran.machine = find_saved(&self.saved, name)?.machine.copy(alloc)?;
        Ok(())
    }

    fn keep(&mut self, alloc: Global, name: &str) -> Result<(), NotDone> {
        let net = self.ran.machine.net(alloc)?;
        let name = Text::of(alloc, name);
        Ok(self.kept.push(Kept { name, net })?)
    }

    // Notes what is found, and isn't what it should be.
    fn differs(&mut self, alloc: Global, name: &str, found: &Text) {
        let mut said = Text::of(alloc, name);
        said.push_str(": ");
        said.push_text(found);
        said.push_byte(b'\n');
        self.told.note(&self.command, &said);
    }

    // Whether a network is the one that was kept under a name.
    fn is_as_kept(&mut self, alloc: Global, net: Option<Net>, name: &str) -> Result<(), NotDone> {
        if !is_same(&find(&self.kept, name)?.net, &net) {
            let mut shown = Text::new(alloc);
            push_shown(alloc, net, &mut shown)?;
            self.differs(alloc, "another network is found", &shown);
        }
        Ok(())
    }

    fn is(&mut self, alloc: Global, name: &str) -> Result<(), NotDone> {
        let net = self.ran.machine.net(alloc)?;
        self.is_as_kept(alloc, net, name)
    }

    fn is_found(&mut self, alloc: Global, name: &str) -> Result<(), NotDone> {
        match self.ran.found() {
            Some(net) => {
                let net = net.copy()?;
                self.is_as_kept(alloc, Some(net), name)
            }
            None => {
                self.differs(alloc, "no network is found", &Text::new(alloc));
                Ok(())
            }
        }
    }

    fn take_output(&mut self, alloc: Global, name: &str) -> Result<(), NotDone> {
        let output = self.ran.out().clone()?;
        self.inputs.begin(alloc, name, output)
    }

    // `N PICK`.
    fn stop(&mut self, alloc: Global, rest: &str) -> Result<(), NotDone> {
        let (after, pick) = first_word(rest);
        let pick = match pick {
            "0" => 0,
            "1" => 1,
            "2" => 2,
            _ => 3,
        };
        self.ran.machine = self.ran.machine.stopped(alloc, number(after)?, pick)?;
        Ok(())
    }

    // Whether an area has these bytes from a position on.
    fn has_bytes(
        &mut self,
        alloc: Global,
        area: &str,
        from: u64,
        digits: &str,
    ) -> Result<(), NotDone> {
        let wanted = bytes_of_hex(alloc, digits)?;
        let held = behind(self.ran.machine.area(area_of(area)?)?, from);
        if held != wanted.as_slice() {
            let mut found = Text::new(alloc);
            push_hex(held, &mut found);
            self.differs(alloc, "bytes found", &found);
        }
        Ok(())
    }

    // `AREA HEX`.
    fn has_all_bytes(&mut self, alloc: Global, rest: &str) -> Result<(), NotDone> {
        let (area, digits) = first_word(rest);
        self.has_bytes(alloc, area, 0, digits)
    }

    // `AREA N HEX`.
    fn has_bytes_behind(&mut self, alloc: Global, rest: &str) -> Result<(), NotDone> {
        let (area, rest) = first_word(rest);
        let (from, digits) = first_word(rest);
        self.has_bytes(alloc, area, number(from)?, digits)
    }

    // `AREA N`.
    fn cut(&mut self, alloc: Global, rest: &str) -> Result<(), NotDone> {
        let (area, to) = first_word(rest);
        let area = area_of(area)?;
        let bytes = Vec::from_slice(alloc, cut(self.ran.machine.area(area)?, number(to)?))?;
        self.ran.machine = self.ran.machine.with_area(alloc, area, bytes)?;
        Ok(())
    }

    // `AREA N HEX`.
    fn write(&mut self, alloc: Global, rest: &str) -> Result<(), NotDone> {
        let (area, rest) = first_word(rest);
        let area = area_of(area)?;
        let (at, digits) = first_word(rest);
        let given = bytes_of_hex(alloc, digits)?;
        let bytes = overwritten(alloc, self.ran.machine.area(area)?, number(at)?, &given)?;
        self.ran.machine = self.ran.machine.with_area(alloc, area, bytes)?;
        Ok(())
    }

    fn sweep(&mut self, alloc: Global, word: &str, rest: &str) -> Result<(), NotDone> {
        self.command = Text::of(alloc, rest);
        let faults = mem::replace(&mut self.faults, Faults::none(alloc));
        let inputs = self.inputs.given(alloc, rest)?;
        let machine = &self.ran.machine;
        let said = swept(alloc, word, rest, &self.kept, inputs, faults, machine)?;
        self.told.note(&self.command, &said);
        Ok(())
    }

    // Lines on what stands.
    fn stands(&mut self, alloc: Global, word: &str, rest: &str) -> Result<(), NotDone> {
        match word {
            "save" => self.save(alloc, rest),
            "from" => self.take_up(alloc, rest),
            "keep" => self.keep(alloc, rest),
            "is" => self.is(alloc, rest),
            "output" => self.take_output(alloc, rest),
            "found" => self.is_found(alloc, rest),
            "stop" => self.stop(alloc, rest),
            "bytes" => self.has_all_bytes(alloc, rest),
            "behind" => self.has_bytes_behind(alloc, rest),
            "cut" => self.cut(alloc, rest),
            "write" => self.write(alloc, rest),
            _ => Err(NotDone),
        }
    }

    // Lines behind what is expected of the command before them.
    fn goes_on(&mut self, alloc: Global, word: &str, rest: &str) -> Result<(), NotDone> {
        match word {
            "document" | "|" | "*" | "x" | "<" => self.inputs.take(alloc, word, rest),
            "fail" | "lying" | "refuses" => self.faults.take(word, rest),
            "$" => self.run(alloc, &Run::Command(step_of(alloc, rest)?), rest),
            "@" => self.run(alloc, &Run::At(step_of(alloc, rest)?), rest),
            "%" => self.run(alloc, &Run::Script(steps_of(alloc, rest)?), rest),
            "stops" | "faults" | "pairs" => self.sweep(alloc, word, rest),
            _ => self.stands(alloc, word, rest),
        }
    }

    fn acts(&mut self, alloc: Global, line: &str) -> Result<(), NotDone> {
        let (word, rest) = first_word(line);
        if matches!(word, ">" | "!" | "=" | "~") {
            return self.expected.take(alloc, word, rest);
        }
        self.compare(alloc);
        self.goes_on(alloc, word, rest)
    }

    /// Takes a line.
    pub fn take(&mut self, alloc: Global, line: &str) {
        if line.is_empty() || line.starts_with('#') {
            return;
        }
        if let Some(name) = line.strip_prefix("case ") {
            self.end_case(alloc);
            self.name = Text::of(alloc, name);
            return;
        }
        match line {
            "also on a disk" => self.is_left_out = false,
            "only on a disk" => self.is_left_out = matches!(self.kind, Kind::Memory),
            _ => {
                if !self.is_left_out && self.acts(alloc, line).is_err() {
                    self.told.not_understood(line);
                }
            }
        }
    }
}
