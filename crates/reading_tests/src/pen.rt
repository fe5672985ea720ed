//! How answers are written.

use mpf_sections::{HandledAt, NameAt, as_handled};
use setting_values::values::{Handler, Name, Step};
use std::alloc::Global;
use std::fmt::{Debug, Display};

/// A text that is written piece by piece. If an allocation is refused a piece is missing, and the
/// text is lost. So what writes needs no `?`, and no `write!` of many parts, which are both slow to
/// prove.
#[derive(Drop)]
pub(crate) struct Pen {
    pub(crate) alloc: Global,
    pub(crate) text: String,
    pub(crate) is_lost: bool,
}

/// The text that these bytes are.
pub(crate) fn utf8(text: &[u8]) -> &str {
    std::str::from_utf8(text).unwrap_or("no UTF-8")
}

impl Pen {
    pub(crate) fn new(alloc: Global) -> Self {
        Pen {
            alloc,
            text: String::new(alloc),
            is_lost: false,
        }
    }

    /// That an allocation was refused.
    pub(crate) fn lose(&mut self) {
        self.is_lost = true;
    }

    /// What is written in the end.
    pub(crate) fn end(&self) -> &str {
        if self.is_lost {
            return "no memory";
        }
        &self.text
    }

    pub(crate) fn put(&mut self, part: &str) {
        if self.text.push_str(part).is_err() {
            self.is_lost = true;
        }
    }

    pub(crate) fn push(&mut self, c: char) {
        if self.text.push(c).is_err() {
            self.is_lost = true;
        }
    }

    pub(crate) fn bytes(&mut self, text: &[u8]) {
        self.put(utf8(text));
    }

    pub(crate) fn value<V: Display + Drop>(&mut self, value: V) {
        if write!(&mut self.text, "{value}").is_err() {
            self.is_lost = true;
        }
    }

    /// Adds a blank and a value.
    pub(crate) fn also<V: Display + Drop>(&mut self, value: V) {
        if write!(&mut self.text, " {value}").is_err() {
            self.is_lost = true;
        }
    }

    /// Adds a blank and a value as `Debug` shows it.
    pub(crate) fn shown<V: Debug + Drop>(&mut self, value: V) {
        if write!(&mut self.text, " {value:?}").is_err() {
            self.is_lost = true;
        }
    }

    /// Adds a text and its line, as `a@1`.
    pub(crate) fn at(&mut self, text: &[u8], line: u32) {
        self.bytes(text);
        self.put("@");
        self.value(line);
    }

    /// Adds a text in angle brackets and its line, as `<a>1`.
    pub(crate) fn quoted(&mut self, text: &[u8], line: u32) {
        self.put("<");
        self.bytes(text);
        self.put(">");
        self.value(line);
    }

    /// Adds a name and its line.
    pub(crate) fn name(&mut self, name: &Name) {
        self.at(&name.text, name.line);
    }

    /// Adds the name of an entry, as ` a@1;`.
    pub(crate) fn entry(&mut self, name: &Name) {
        self.put(" ");
        self.name(name);
        self.put(";");
    }

    /// Adds names, each behind a blank.
    pub(crate) fn names(&mut self, names: &[Name]) {
        for name in names {
            self.put(" ");
            self.name(name);
        }
    }

    /// Adds names and a semicolon.
    pub(crate) fn listed(&mut self, names: &[Name]) {
        self.names(names);
        self.put(";");
    }

    /// Adds a blank and the name of something, or ` -` if there is none.
    pub(crate) fn name_at(&mut self, name: Option<NameAt<'_>>) {
        match name {
            Some(name) => {
                self.put(" ");
                self.at(name.text, name.line);
            }
            None => self.put(" -"),
        }
    }

    /// Adds a handled event, as `a{b Equal 1}@1`.
    pub(crate) fn handled(&mut self, event: HandledAt<'_>) {
        self.bytes(event.name);
        if let Some(guard) = event.condition {
            self.put("{");
            self.bytes(&guard.variable);
            self.shown(guard.comparison);
            self.also(guard.number);
            self.put("}");
        }
        self.put("@");
        self.value(event.line);
    }

    /// Adds handled events, each behind a blank.
    pub(crate) fn handlers(&mut self, handlers: &[Handler]) {
        for handler in handlers {
            self.put(" ");
            self.handled(as_handled(handler));
        }
    }

    /// Adds a semicolon and handled events.
    pub(crate) fn events(&mut self, handlers: &[Handler]) {
        self.put(";");
        self.handlers(handlers);
    }

    /// Adds steps, each in brackets.
    pub(crate) fn steps(&mut self, steps: &[Step]) {
        for step in steps {
            self.put("[");
            match step {
                Step::Always(name) => {
                    self.put(" ");
                    self.name(name);
                }
                Step::AnyOf(handlers) => self.handlers(handlers),
            }
            self.put("]");
        }
    }
}
