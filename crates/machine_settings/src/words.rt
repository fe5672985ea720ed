//! What the words in settings say.

/// The state of a switch's contact while nothing presses it.
#[derive(Clone, Copy, Debug, PartialEq, Eq)]
pub enum Contact {
    /// Open: raw level 1 is active.
    NormallyOpen,
    /// Closed: raw level 0 is active.
    NormallyClosed,
}

/// Which way a value goes.
#[derive(Clone, Copy, Debug, PartialEq, Eq)]
pub enum Direction {
    Up,
    Down,
}

impl Direction {
    ghost use Rattle.std.specs.Prelude.{◌≡◌};
    ghost use Rattle.machine_settings.specs.Ends.{is_at_end};

    /// Whether a value that goes this way has reached or passed its end, if it has one.
    pub fn is_at_end(self, end: Option<i64>, value: i64) -> bool
        ensures { result ≡ is_at_end self end value }
    {
        match (self, end) {
            (_, None) => false,
            (Direction::Up, Some(end)) => end <= value,
            (Direction::Down, Some(end)) => value <= end,
        }
    }
}

/// What is done with a variable.
#[derive(Clone, Copy, Debug, PartialEq, Eq)]
pub enum VariableAction {
    /// The number is added to it.
    Add,
    /// It becomes the number.
    Set,
}
