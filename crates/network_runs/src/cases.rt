//! The lines of the input, and what comes of each.
//!
//! | line | does |
//! |---|---|
//! | `hardware LIST` | the devices of all networks |
//! | `network NAME DOCUMENT` | names the network that a document makes of the devices |
//! | `grow NAME NEW N CALL` | names the network that a call N times makes of a named one, with the number of the time from 0: how many whole 64 for `%`, what is left for `#` |
//! | `drawn SEED N` | N pairs of networks that the seed draws, with the plans from the one to the other and back |
//! | `== TITLE` | begins a group of cases |
//! | `line CALL` | a case: a call that is printed as it stands there |
//! | `NAME: CALL => ANSWER` | a case: a call on a named network, and the number with which it is refused, `done`, or the name of the network that then stands |
//!
//! In lists and documents a bar stands for a line's end. A call that is refused changes nothing.

use crate::calls::call;
use crate::networks::{first, merged, try_call};
use crate::pairs::push_led;
use crate::printing::is_printed;
use crate::reading::number;
use case_table::{Text, first_word, parted, push_numbered};
use net_core::Net;
use net_equal::same_net;
use std::alloc::Global;

/// A network under a name.
#[derive(Drop)]
struct Named {
    name: String,
    net: Net,
}

/// The cases so far.
#[derive(Drop)]
pub struct Cases {
    devices: Option<Net>,
    networks: Vec<Named>,
    title: Text,
    told: Text,
    count: u64,
    differ: u64,
}

// The text with line ends in place of bars, and one behind it.
fn lines(alloc: Global, text: &str) -> Text {
    let mut lines = Text::new(alloc);
    for byte in text.as_bytes() {
        lines.push_byte(if *byte == b'|' { b'\n' } else { *byte });
    }
    lines.push_byte(b'\n');
    lines
}

// The words of a call with a number in them, in 64ths for `%` and what is left for `#`.
fn numbered(alloc: Global, words: &str, at: u32) -> Text {
    let mut high = Text::new(alloc);
    push_numbered(words, b'%', u64::from(at / 64), &mut high);
    let mut text = Text::new(alloc);
    push_numbered(high.as_str(), b'#', u64::from(at % 64), &mut text);
    text
}

fn find<'a>(networks: &'a [Named], name: &str) -> Option<&'a Net> {
    for named in networks {
        if named.name.as_str() == name {
            return Some(&named.net);
        }
    }
    None
}

// Makes a call with a number in it. None where it is refused.
fn grow_once(alloc: Global, net: &mut Net, words: &str, at: u32) -> Option<()> {
    let line = numbered(alloc, words, at);
    let call = call(alloc, line.as_str())?;
    match try_call(net, &call)? {
        Some(_) => None,
        None => Some(()),
    }
}

// Makes a call so many times.
fn grown(alloc: Global, mut net: Net, times: u32, words: &str) -> Option<Net> {
    for at in 0..times {
        grow_once(alloc, &mut net, words, at)?;
    }
    Some(net)
}

// Says what differs where a call was refused with a number.
fn push_refused(alloc: Global, is_same: bool, number: u8, wanted: &str, said: &mut Text) {
    if !is_same {
        said.push_str("a refused call changes the network");
    }
    let mut found = Text::new(alloc);
    found.push_number(u64::from(number));
    if found.as_str() != wanted {
        said.push_str("refused with ");
        said.push_str(found.as_str());
    }
}

// Whether the network that stands is as it is wanted.
fn is_wanted(networks: &[Named], net: &Net, wanted: &str) -> bool {
    if wanted == "done" {
        return true;
    }
    match find(networks, wanted) {
        Some(named) => same_net(named, net),
        None => false,
    }
}

// What differs of an answer, or nothing.
fn difference(
    alloc: Global,
    networks: &[Named],
    before: &Net,
    net: &Net,
    answer: Option<u8>,
    wanted: &str,
) -> Text {
    let mut said = Text::new(alloc);
    match answer {
        Some(number) => push_refused(alloc, same_net(before, net), number, wanted, &mut said),
        None => {
            if !is_wanted(networks, net, wanted) {
                said.push_str("done");
            }
        }
    }
    said
}

impl Cases {
    pub fn new(alloc: Global) -> Cases {
        Cases {
            devices: None,
            networks: Vec::new(alloc),
            title: Text::new(alloc),
            told: Text::new(alloc),
            count: 0,
            differ: 0,
        }
    }

    fn tell(&mut self, what: &str, line: &str) {
        self.told.push_str(what);
        self.told.push_str(": ");
        self.told.push_str(line);
        self.told.push_byte(b'\n');
    }

    // Ends a group of cases.
    fn end(&mut self) {
        if self.count > 0 {
            self.told.push_text(&self.title);
            self.told.push_str(": ");
            self.told.push_count(self.count, " cases, ");
            self.told.push_count(self.differ, " differ\n");
        }
        self.count = 0;
        self.differ = 0;
    }

    // Begins a group of cases.
    fn begin(&mut self, alloc: Global, title: &str) {
        self.end();
        self.title = Text::of(alloc, title);
    }

    /// Ends the last group of cases, and gives a line for each case that differs, and for each title; none where memory ran out.
    pub fn finish(&mut self) -> Option<&[u8]> {
        self.end();
        self.told.whole()
    }

    fn push(&mut self, alloc: Global, name: &str, net: Net) -> Option<()> {
        let name = String::from_str(alloc, name).ok()?;
        self.networks.push(Named { name, net }).ok()
    }

    // `LIST`.
    fn hardware(&mut self, alloc: Global, list: &str) -> Option<()> {
        let list = lines(alloc, list);
        self.devices = Some(first(alloc, list.as_str())?);
        Some(())
    }

    // `NAME DOCUMENT`.
    fn name(&mut self, alloc: Global, rest: &str) -> Option<()> {
        let (name, document) = first_word(rest);
        let document = lines(alloc, document);
        let net = merged(alloc, self.devices.as_ref()?, document.as_str())?;
        self.push(alloc, name, net)
    }

    // `NAME NEW N CALL`.
    fn grow(&mut self, alloc: Global, rest: &str) -> Option<()> {
        let (name, rest) = first_word(rest);
        let (new, rest) = first_word(rest);
        let (times, words) = first_word(rest);
        let times = number(times)?;
        let net = find(&self.networks, name)?.copy().ok()?;
        let net = grown(alloc, net, times, words)?;
        self.push(alloc, new, net)
    }

    // `SEED N`, of a line.
    fn drawn(&mut self, alloc: Global, line: &str, rest: &str) -> Option<()> {
        let (seed, count) = first_word(rest);
        let seed = u64::from(number(seed)?);
        let count = number(count)?;
        let mut told = Text::new(alloc);
        push_led(alloc, seed, count, &mut told)?;
        self.told.remember(told.is_whole);
        self.tell(line, told.as_str());
        Some(())
    }

    // `NAME: CALL => ANSWER`.
    fn case(&mut self, alloc: Global, line: &str) -> Option<()> {
        let (name, rest) = parted(line, ": ");
        let (words, wanted) = parted(rest, " => ");
        self.count = self.count.wrapping_add(1);
        let call = call(alloc, words)?;
        let before = find(&self.networks, name)?;
        let mut net = before.copy().ok()?;
        let answer = try_call(&mut net, &call)?;
        let said = difference(alloc, &self.networks, before, &net, answer, wanted);
        self.differs(&said, line);
        Some(())
    }

    // Tells what differs of a case, if anything does.
    fn differs(&mut self, said: &Text, line: &str) {
        self.told.remember(said.is_whole);
        if !said.bytes.is_empty() {
            self.differ = self.differ.wrapping_add(1);
            self.tell(said.as_str(), line);
        }
    }

    // `CALL`.
    fn printed(&mut self, alloc: Global, line: &str) -> Option<()> {
        self.count = self.count.wrapping_add(1);
        if !is_printed(alloc, line)? {
            self.differ = self.differ.wrapping_add(1);
            self.tell("printed otherwise", line);
        }
        Some(())
    }

    fn acts(&mut self, alloc: Global, line: &str) -> Option<()> {
        let (word, rest) = first_word(line);
        match word {
            "hardware" => self.hardware(alloc, rest),
            "network" => self.name(alloc, rest),
            "grow" => self.grow(alloc, rest),
            "drawn" => self.drawn(alloc, line, rest),
            "line" => self.printed(alloc, rest),
            "==" => {
                self.begin(alloc, rest);
                Some(())
            }
            _ => self.case(alloc, line),
        }
    }

    /// Takes a line.
    pub fn take(&mut self, alloc: Global, line: &str) {
        if line.is_empty() || line.starts_with('#') {
            return;
        }
        if self.acts(alloc, line).is_none() {
            self.tell("not understood", line);
        }
    }
}
