//! The text that is written.
use cbl_base::{NoMemory, Place, Text};
use comet_syntax::tree::Name;
use itoa::Buffer;
use std::alloc::Global;

/// Whether places are written.
#[derive(Clone, Copy, PartialEq, Eq, Debug)]
pub enum Places {
    Written,
    Omitted,
}

/// What is written so far. Where memory runs out, what is written is no text, and only the end says so: so none that
/// write have to.
#[derive(Drop)]
pub struct Writer {
    pub(crate) alloc: Global,
    pub(crate) places: Places,
    pub(crate) is_full: bool,
    out: Vec<u8>,
}

impl Writer {
    /// Nothing yet.
    pub fn new(alloc: Global, places: Places) -> Writer {
        Writer {
            alloc,
            places,
            is_full: false,
            out: Vec::new(alloc),
        }
    }

    /// What was written, if there was memory for it.
    pub fn text(self) -> Result<Vec<u8>, NoMemory> {
        if self.is_full {
            Err(NoMemory)
        } else {
            Ok(self.out)
        }
    }

    /// Writes bytes as they stand.
    pub fn bytes(&mut self, bytes: &[u8]) {
        if self.out.extend_from_slice(bytes).is_err() {
            self.is_full = true;
        }
    }

    /// Writes words as they stand.
    pub fn words(&mut self, words: &str) {
        self.bytes(words.as_bytes());
    }

    /// Writes a number in decimal.
    pub fn number(&mut self, value: i64) {
        let mut buffer = Buffer::new();
        self.words(buffer.format(value));
    }

    /// Writes `line:column`.
    pub fn place(&mut self, place: Place) {
        self.number(i64::from(place.line));
        self.words(":");
        self.number(i64::from(place.col));
    }

    /// Writes `@line:column`, where places are written.
    pub fn mark(&mut self, place: Place) {
        match self.places {
            Places::Omitted => {}
            Places::Written => {
                self.words("@");
                self.place(place);
            }
        }
    }

    /// Writes words as they stand, with their place behind them.
    pub(crate) fn marked(&mut self, words: &str, place: Place) {
        self.words(words);
        self.mark(place);
    }

    /// Writes a name with its place.
    pub(crate) fn named(&mut self, name: &Name) {
        self.bytes(name.text.as_slice());
        self.mark(name.place);
    }

    /// Writes a name with its place, behind words.
    pub(crate) fn named_behind(&mut self, words: &str, name: &Name) {
        self.words(words);
        self.named(name);
    }

    /// Writes `(word`, with its place behind it.
    pub(crate) fn begin(&mut self, word: &str, place: Place) {
        self.words("(");
        self.marked(word, place);
    }

    /// Writes a text in quotes, with its escapes replaced.
    pub(crate) fn quoted(&mut self, text: &Text) {
        self.words("\"");
        self.bytes(text.as_slice());
        self.words("\"");
    }
}
