//! The profiles of shots.

ghost use Rattle.std.specs.Prelude.{◌≤◌, length};

/// A profile: what states a shot has, and how it goes from one to the next.
#[derive(Drop)]
pub struct Profile<'a> {
    pub name: &'a [u8],
    /// The names of its states, first to last: at most 16.
    pub states: Vec<&'a [u8]>,
    /// Whether a hit moves a shot to its next state.
    pub advance_on_hit: bool,
    /// Whether the first state comes after the last one.
    pub loops: bool,
    ghost few: { length states.items ≤ 16 },
}
