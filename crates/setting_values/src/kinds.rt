//! Kinds: what the value of a setting has to be, and what applies if a text is left out.

/// What a text is to be.
#[derive(Clone, Copy)]
pub enum Scalar {
    /// A boolean.
    Flag,
    /// An integer from the first to the second.
    Number(i64, i64),
    /// A time in milliseconds from the first to the second.
    Time(u32, u32),
    /// A power.
    Power,
    /// One of these words.
    Word(&'static [&'static [u8]]),
    /// A name.
    Name,
    /// A handled event.
    Event,
}

/// How many items a list may have, besides the limit of 1,024.
#[derive(Clone, Copy)]
pub enum Bounds {
    AtLeast(usize),
    /// From the first to the second.
    Between(usize, usize),
}

/// What to do with keys of a map that its table does not have.
#[derive(Clone, Copy)]
pub enum Others {
    /// Report them as `UnknownSetting`.
    Refused,
    /// Do not look at their values.
    Ignored,
}

/// What a text is if it is not written.
#[derive(Clone, Copy)]
pub enum Absent {
    /// It has to be written.
    Required,
    /// Nothing holds.
    Nothing,
    Flag(bool),
    Number(i64),
    Time(u32),
    Power(u16),
    Word(&'static [u8]),
    Name(&'static [u8]),
}

/// A key of the maps in a list, or of the map that belongs to a name.
#[derive(Clone, Copy)]
pub struct Field {
    pub key: &'static [u8],
    pub kind: Scalar,
    pub absent: Absent,
}

/// What the value of a setting is to be.
#[derive(Clone, Copy)]
pub enum Kind {
    /// One text.
    One(Scalar),
    /// A list of names.
    Names(Bounds),
    /// A list of posted events, which are names.
    Posts(Bounds),
    /// A list of handled events.
    Events(Bounds),
    /// A YAML list of steps, each a list of handled events that is not empty.
    Steps(Bounds),
    /// A YAML list of maps with these keys.
    Maps(&'static [Field], Others, Bounds),
    /// Such a list in which the first field of each map is its name, and no two maps have the same
    /// one.
    NamedMaps(&'static [Field], Others, Bounds),
    /// A map of names, of which there may be as many as items in a list. Each has a map with these
    /// keys, or one text: the value of the field at this place, with the defaults for the other
    /// fields.
    Keyed(&'static [Field], usize, Scalar),
}
