//! The values of settings.

use mpf_values::Comparison;
use smallvec::SmallVec;
use std::mem::size_of;

/// The letters of a name. Most names are short: up to 16 letters are in the value itself, and take no
/// memory of their own.
pub type NameText = SmallVec<u8, 16>;

/// A name of 1 to 64 letters, digits, `_`, `-` and `.`, with the line where it is written,
/// counted from 1; line 0 if it is not written and holds by default.
#[derive(Drop)]
pub struct Name {
    pub line: u32,
    pub text: NameText,
}

/// That a variable of the current player compares so with a number.
#[derive(Drop)]
pub struct Guard {
    pub variable: NameText,
    pub comparison: Comparison,
    pub number: i64,
}

/// An event that is handled, with its condition if it has one, and the line where it is written;
/// line 0 if it is not written and holds by default.
#[derive(Drop)]
pub struct Handler {
    pub line: u32,
    pub name: NameText,
    pub condition: Option<Box<Guard>>,
}

/// A step: the handled events that do it. Most steps have one event that is handled always. Then it is
/// in the step itself, and takes no list.
#[derive(Drop)]
pub enum Step {
    /// The event of this name, handled always.
    Always(Name),
    /// These events.
    AnyOf(Vec<Handler>),
}

/// What one text says. Large values are in a box, so a value has 24 bytes.
#[derive(Drop)]
pub enum Plain {
    /// Nothing is written, and nothing holds by default.
    Nothing,
    Flag(bool),
    Number(i64),
    /// In milliseconds.
    Time(u32),
    /// In thousandths of full power.
    Power(u16),
    /// A word of the table.
    Word(&'static [u8]),
    Name(Box<Name>),
    /// A name that is not written but holds by default.
    DefaultName(&'static [u8]),
    Event(Box<Handler>),
}

/// A map in a list, with the line where it begins: its values in the order of its table.
#[derive(Drop)]
pub struct Fields {
    pub line: u32,
    pub values: Vec<Plain>,
}

/// A name, and the values that belong to it in the order of their table.
#[derive(Drop)]
pub struct KeyedValues {
    pub name: Name,
    pub values: Vec<Plain>,
}

/// The value of a setting, of 32 bytes.
#[derive(Drop)]
pub enum Value {
    One(Plain),
    /// Names, as tags are.
    Names(Vec<Name>),
    /// Names of events that are posted.
    Posts(Vec<Name>),
    Events(Vec<Handler>),
    /// Steps, each the handled events that do it.
    Steps(Vec<Step>),
    Maps(Vec<Fields>),
    Keyed(Vec<KeyedValues>),
}

const _: () = prove!(size_of::<Plain>() <= 24);

const _: () = prove!(size_of::<Value>() <= 32);

const _: () = prove!(size_of::<Handler>() <= 56);

const _: () = prove!(size_of::<Step>() <= 48);
