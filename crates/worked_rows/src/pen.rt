//! How answers are written.

use std::alloc::Global;
use std::fmt::{Debug, Display};

/// A text that is written piece by piece. If an allocation is refused a piece is missing, and the
/// text is lost. So what writes needs no `?`, and no `write!` of many parts, which are both slow to
/// prove.
#[derive(Drop)]
pub struct Pen {
    pub alloc: Global,
    pub text: String,
    pub is_lost: bool,
}

impl Pen {
    pub fn new(alloc: Global) -> Self {
        Pen {
            alloc,
            text: String::new(alloc),
            is_lost: false,
        }
    }

    /// What is written in the end.
    pub fn end(&self) -> &str {
        if self.is_lost {
            return "no memory";
        }
        &self.text
    }

    pub fn put(&mut self, part: &str) {
        if self.text.push_str(part).is_err() {
            self.is_lost = true;
        }
    }

    pub fn push(&mut self, mark: char) {
        if self.text.push(mark).is_err() {
            self.is_lost = true;
        }
    }

    pub fn value<V: Display + Drop>(&mut self, value: V) {
        if write!(&mut self.text, "{value}").is_err() {
            self.is_lost = true;
        }
    }

    /// Adds a value as `Debug` shows it.
    pub fn shown<V: Debug + Drop>(&mut self, value: V) {
        if write!(&mut self.text, "{value:?}").is_err() {
            self.is_lost = true;
        }
    }
}
