//! Sections by name, as written.

use section_tables::rows::{Entry, PlayerEntry};
use setting_values::values::Name;

/// The content of a section, as written.
#[derive(Drop)]
pub enum Content {
    /// Entries by the table of the section.
    Entries(Vec<Entry>),
    /// The entries of a player.
    Players(Vec<PlayerEntry>),
    /// The section is one entry, as `mode` is.
    Entry(Entry),
    /// The section is a list of names, as `modes` is.
    Names(Vec<Name>),
}

/// A section of a text, by its name.
#[derive(Drop)]
pub struct Section {
    pub name: Vec<u8>,
    pub content: Content,
}
