//! A text that remembers whether there was memory for it.

use base_model::{OutOfMemory, push_decimal};
use std::alloc::Global;

/// A text that is pushed piece by piece. It remembers whether there was memory for each piece: no push has an answer of its own,
/// and one question behind the last is enough.
pub struct Text {
    pub bytes: Vec<u8>,
    /// Whether there was memory for all that was pushed.
    pub is_whole: bool,
}

// By hand, so that a proof sees one call where one is dropped, and not a step for each part.
impl Drop for Text {
    fn drop(self) {
        let Text {
            bytes: _,
            is_whole: _,
        } = self;
    }
}

impl Text {
    /// A text without any byte. It allocates nothing.
    pub fn new(alloc: Global) -> Text {
        Text {
            bytes: Vec::new(alloc),
            is_whole: true,
        }
    }

    /// The text of a string.
    pub fn of(alloc: Global, text: &str) -> Text {
        let mut out = Text::new(alloc);
        out.push_str(text);
        out
    }

    /// Remembers whether a step was done for which memory is needed.
    pub fn remember(&mut self, is_done: bool) {
        if !is_done {
            self.is_whole = false;
        }
    }

    pub fn push_byte(&mut self, byte: u8) {
        let pushed = self.bytes.push(byte);
        self.remember(pushed.is_ok());
    }

    pub fn push_bytes(&mut self, bytes: &[u8]) {
        let pushed = self.bytes.extend_from_slice(bytes);
        self.remember(pushed.is_ok());
    }

    pub fn push_str(&mut self, text: &str) {
        self.push_bytes(text.as_bytes());
    }

    /// Pushes a string and a line's end.
    pub fn push_line(&mut self, line: &str) {
        self.push_str(line);
        self.push_byte(b'\n');
    }

    /// Pushes a number in decimal.
    pub fn push_number(&mut self, number: u64) {
        let pushed = push_decimal(number, &mut self.bytes);
        self.remember(pushed.is_ok());
    }

    /// Pushes a number, and what there are so many of.
    pub fn push_count(&mut self, number: u64, what: &str) {
        self.push_number(number);
        self.push_str(what);
    }

    /// Pushes another text, and remembers whether that is whole.
    pub fn push_text(&mut self, other: &Text) {
        self.push_bytes(&other.bytes);
        self.remember(other.is_whole);
    }

    /// Pushes what was made, if there was memory for it.
    pub fn push_made(&mut self, made: Result<Vec<u8>, OutOfMemory>) {
        match made {
            Ok(bytes) => self.push_bytes(&bytes),
            Err(OutOfMemory) => self.is_whole = false,
        }
    }

    /// Whether it is whole, and has these bytes.
    pub fn is(&self, bytes: &[u8]) -> bool {
        self.is_whole && self.bytes.as_slice() == bytes
    }

    /// The bytes, where there was memory for all of them.
    pub fn whole(&self) -> Option<&[u8]> {
        if self.is_whole {
            Some(self.bytes.as_slice())
        } else {
            None
        }
    }

    /// The text, where there was memory for all of it and it is UTF-8, else an empty one.
    pub fn as_str(&self) -> &str {
        str::from_utf8(self.whole().unwrap_or(b"".as_slice())).unwrap_or("")
    }

    /// The bytes, where there was memory for all of them.
    pub fn into_bytes(self) -> Result<Vec<u8>, OutOfMemory> {
        let Text { bytes, is_whole } = self;
        if is_whole {
            Ok(bytes)
        } else {
            Err(OutOfMemory)
        }
    }
}
