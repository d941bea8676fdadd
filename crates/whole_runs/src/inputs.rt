//! Inputs by their names.

use crate::not_done::NotDone;
use crate::reading::{number, push_times};
use case_table::{Text, bytes_of_hex, first_word};
use std::alloc::Global;
use std::mem;

/// The inputs of a case, behind those of all cases.
pub struct Inputs {
    inputs: Vec<(String, Vec<u8>)>,
    // How many of them are of all cases.
    shared: usize,
    // Whether lines are added to the last of them.
    is_begun: bool,
    // What the next command has as standard input, where it has lines.
    standard: Text,
}

// By hand, so that a proof sees one call where one is dropped, and not a step for each part.
impl Drop for Inputs {
    fn drop(self) {
        let Inputs {
            inputs: _,
            shared: _,
            is_begun: _,
            standard: _,
        } = self;
    }
}

fn copied_input(input: &(String, Vec<u8>)) -> Result<(String, Vec<u8>), NotDone> {
    Ok((input.0.clone()?, input.1.clone()?))
}

/// Copies inputs.
pub fn copied(
    alloc: Global,
    inputs: &[(String, Vec<u8>)],
) -> Result<Vec<(String, Vec<u8>)>, NotDone> {
    let mut copy = Vec::new(alloc);
    for input in inputs {
        copy.push(copied_input(input)?)?;
    }
    Ok(copy)
}

/// These bytes as standard input, and nothing else.
pub fn standard_input(alloc: Global, bytes: &[u8]) -> Result<Vec<(String, Vec<u8>)>, NotDone> {
    let mut inputs = Vec::new(alloc);
    inputs.push((
        String::from_str(alloc, "-")?,
        Vec::from_slice(alloc, bytes)?,
    ))?;
    Ok(inputs)
}

impl Inputs {
    pub fn new(alloc: Global) -> Inputs {
        Inputs {
            inputs: Vec::new(alloc),
            shared: 0,
            is_begun: false,
            standard: Text::new(alloc),
        }
    }

    /// Begins an input with a name and these bytes.
    pub fn begin(&mut self, alloc: Global, name: &str, bytes: Vec<u8>) -> Result<(), NotDone> {
        self.inputs.push((String::from_str(alloc, name)?, bytes))?;
        self.is_begun = true;
        Ok(())
    }

    // Appends to the input that was begun last.
    fn append(&mut self, given: &[u8]) -> Result<(), NotDone> {
        match self.inputs.last_mut() {
            Some(input) if self.is_begun => Ok(input.1.extend_from_slice(given)?),
            _ => Err(NotDone),
        }
    }

    fn append_line(&mut self, line: &str) -> Result<(), NotDone> {
        self.append(line.as_bytes())?;
        self.append(b"\n")
    }

    // `TIMES TEXT`: appends the text so many times, with the number of the time for each `%` in it.
    fn repeat(&mut self, alloc: Global, line: &str) -> Result<(), NotDone> {
        let (times, text) = first_word(line);
        let times = number(times)?;
        let mut bytes = Text::new(alloc);
        push_times(times, text, b'%', &mut bytes);
        self.append(&bytes.into_bytes()?)
    }

    /// Takes a line of an input.
    pub fn take(&mut self, alloc: Global, word: &str, rest: &str) -> Result<(), NotDone> {
        match word {
            "document" => self.begin(alloc, rest, Vec::new(alloc)),
            "|" => self.append_line(rest),
            "*" => self.repeat(alloc, rest),
            "x" => self.append(&bytes_of_hex(alloc, rest)?),
            _ => {
                self.standard.push_line(rest);
                Ok(())
            }
        }
    }

    // Adds what was given as standard input, if anything was.
    fn push_standard(
        &mut self,
        alloc: Global,
        given: &mut Vec<(String, Vec<u8>)>,
    ) -> Result<(), NotDone> {
        if !self.standard.bytes.is_empty() {
            let standard = mem::replace(&mut self.standard, Text::new(alloc));
            given.push((String::from_str(alloc, "-")?, standard.into_bytes()?))?;
        }
        Ok(())
    }

    /// What a source has for a command: the inputs that its line names, and for a script all of them.
    pub fn given(&mut self, alloc: Global, line: &str) -> Result<Vec<(String, Vec<u8>)>, NotDone> {
        self.is_begun = false;
        let mut given = Vec::new(alloc);
        for input in &self.inputs {
            if line.contains("script") || line.contains(input.0.as_str()) {
                given.push(copied_input(input)?)?;
            }
        }
        self.push_standard(alloc, &mut given)?;
        Ok(given)
    }

    /// Ends a case: what it added goes. What was added before the first case stays for all of them.
    pub fn end_case(&mut self, is_first: bool) {
        if is_first {
            self.shared = self.inputs.len();
        }
        self.inputs.truncate(self.shared);
        self.standard.bytes.clear();
        self.is_begun = false;
    }
}
