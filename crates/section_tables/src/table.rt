//! Tables: what settings a section has, of which kind the value of each is, and what applies if it is left out.

use setting_values::kinds::{Absent, Kind, Scalar};

/// What a setting is if it is not written.
#[derive(Clone, Copy)]
pub enum Without {
    /// What a text is if it is not written. A list may be `Required` too.
    One(Absent),
    /// An empty list of names.
    NoNames,
    /// This name alone.
    Name(&'static [u8]),
    /// An empty list of posted events.
    NoPosts,
    /// An empty list of handled events.
    NoEvents,
    /// The event of this name alone, handled always.
    Event(&'static [u8]),
    /// An empty list of maps.
    NoMaps,
}

/// A setting of a section.
#[derive(Clone, Copy)]
pub struct Setting {
    pub key: &'static [u8],
    pub kind: Kind,
    pub without: Without,
}

/// Of which kind the keys of a player are, which are events, and its values.
#[derive(Clone, Copy)]
pub struct PlayerKinds {
    pub key: Scalar,
    pub value: Kind,
}

/// Names that no entry of a section may have.
#[derive(Clone, Copy)]
pub struct BarredNames {
    pub names: &'static [&'static [u8]],
}

/// How a section is written.
#[derive(Clone, Copy)]
pub enum Shape {
    /// Entries, none of which has a barred name, each with the settings of this table.
    Entries(BarredNames, &'static [Setting]),
    /// The entries of a player.
    Players(PlayerKinds),
    /// The section is one entry itself, with the settings of this table.
    Entry(&'static [Setting]),
    /// A list of names.
    Names,
}
