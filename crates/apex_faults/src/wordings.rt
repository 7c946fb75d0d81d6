//! A text that is put together piece by piece.
use std::alloc::{AllocError, Global};

/// A text, and whether memory was refused to those who put it together.
#[derive(Drop)]
pub struct Wording {
    alloc: Global,
    text: String,
    is_refused: bool,
}

impl Wording {
    /// A text of no byte, whose memory is taken piece by piece.
    pub fn new(alloc: Global) -> Wording {
        Wording {
            alloc,
            text: String::new(alloc),
            is_refused: false,
        }
    }

    /// Where the text has its memory.
    pub fn alloc(&self) -> Global {
        self.alloc
    }

    /// Puts a piece behind the text.
    pub fn put(&mut self, piece: &str) {
        if self.text.push_str(piece).is_err() {
            self.refuse();
        }
    }

    /// Puts a number in decimal digits.
    pub fn put_number(&mut self, number: usize) {
        if write!(self.text, "{number}").is_err() {
            self.refuse();
        }
    }

    /// Puts a number that may be below 0, in decimal digits.
    pub fn put_integer(&mut self, number: i64) {
        if write!(self.text, "{number}").is_err() {
            self.refuse();
        }
    }

    /// Puts a word between two pieces.
    pub fn put_between(&mut self, front: &str, word: &str, back: &str) {
        self.put(front);
        self.put(word);
        self.put(back);
    }

    /// Puts a number between two pieces.
    pub fn put_number_between(&mut self, front: &str, number: usize, back: &str) {
        self.put(front);
        self.put_number(number);
        self.put(back);
    }

    /// Notes that memory was refused.
    pub fn refuse(&mut self) {
        self.is_refused = true;
    }

    /// The text; `AllocError` if memory was refused.
    pub fn finish(self) -> Result<String, AllocError> {
        if self.is_refused {
            return Err(AllocError);
        }
        Ok(self.text)
    }
}
