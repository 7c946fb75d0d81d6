//! A text that is written piece by piece.
use crate::faults::CaseFault;
use std::alloc::Global;

/// A text, and the first fault of those who wrote it.
#[derive(Drop)]
pub struct Text {
    text: String,
    fault: Option<CaseFault>,
}

impl Text {
    pub(crate) fn new(alloc: Global) -> Text {
        Text {
            text: String::new(alloc),
            fault: None,
        }
    }

    /// A text that begins with this piece.
    pub(crate) fn of(alloc: Global, piece: &str) -> Text {
        let mut text = Text::new(alloc);
        text.put(piece);
        text
    }

    /// Appends a piece; `Memory` if there is no room for it.
    pub(crate) fn put(&mut self, piece: &str) {
        if self.text.push_str(piece).is_err() {
            self.blame(CaseFault::Memory);
        }
    }

    /// Appends a line, with its line feed.
    pub(crate) fn put_line(&mut self, line: &str) {
        self.put(line);
        self.put("\n");
    }

    /// Appends a number in decimal digits.
    pub(crate) fn put_number(&mut self, number: u64) {
        if write!(self.text, "{number}").is_err() {
            self.blame(CaseFault::Memory);
        }
    }

    /// Appends a number, and what it counts.
    pub(crate) fn put_count(&mut self, count: u64, noun: &str) {
        self.put_number(count);
        self.put(noun);
    }

    /// Appends a number of a group, and what it counts.
    pub(crate) fn put_named_count(&mut self, group: &str, count: u64, noun: &str) {
        self.put(group);
        self.put(": ");
        self.put_count(count, noun);
    }

    /// Appends a line that says this of an item of a group.
    pub(crate) fn put_item(&mut self, group: &str, item: &str, what: &str) {
        self.put(group);
        self.put(": ");
        self.put(item);
        self.put(": ");
        self.put_line(what);
    }

    /// This text with the new piece in place of the old one, at the first `most` places.
    pub(crate) fn replaced(&self, alloc: Global, old: &str, new: &str, most: usize) -> Text {
        match self.text.as_str().replacen(alloc, old, new, most) {
            Ok(text) => Text {
                text,
                fault: self.fault,
            },
            Err(_) => Text {
                text: String::new(alloc),
                fault: self.fault.or(Some(CaseFault::Memory)),
            },
        }
    }

    /// Notes a fault, if there was none before.
    pub(crate) fn blame(&mut self, fault: CaseFault) {
        if self.fault.is_none() {
            self.fault = Some(fault);
        }
    }

    /// Notes the fault of another text, if it has one.
    pub(crate) fn blame_with(&mut self, other: &Text) {
        if let Some(fault) = other.fault {
            self.blame(fault);
        }
    }

    /// Begins anew; its fault stays.
    pub(crate) fn clear(&mut self) {
        self.text.clear();
    }

    /// What was written, whatever its fault.
    pub(crate) fn as_str(&self) -> &str {
        self.text.as_str()
    }

    /// The fault, if it has one.
    pub(crate) fn fault(&self) -> Option<CaseFault> {
        self.fault
    }

    /// What was written; its fault if it has one.
    pub(crate) fn whole(&self) -> Result<&str, CaseFault> {
        match self.fault {
            Some(fault) => Err(fault),
            None => Ok(self.text.as_str()),
        }
    }
}
