//! What a handled event says.

/// How a variable is to compare with a number.
#[derive(Clone, Copy, Debug)]
pub enum Comparison {
    /// `==`
    Equal,
    /// `!=`
    NotEqual,
    /// `<`
    Less,
    /// `<=`
    LessOrEqual,
    /// `>`
    Greater,
    /// `>=`
    GreaterOrEqual,
}

impl Comparison {
    ghost use Rattle.std.specs.Prelude.{◌≡◌};
    ghost use Rattle.mpf_values.specs.Comparing.{compares};

    /// Whether a value compares so with a number.
    pub fn holds(self, value: i64, number: i64) -> bool
        ensures { result ≡ compares self value number }
    {
        match self {
            Comparison::Equal => value == number,
            Comparison::NotEqual => value != number,
            Comparison::Less => value < number,
            Comparison::LessOrEqual => value <= number,
            Comparison::Greater => value > number,
            Comparison::GreaterOrEqual => value >= number,
        }
    }
}

/// A comparison of a variable of the current player with a number.
#[derive(Clone, Copy)]
pub struct EventCondition<'a> {
    /// The name of the variable.
    pub variable: &'a [u8],
    /// How it is to compare.
    pub comparison: Comparison,
    /// The number that it is compared with: -1,000,000,000 to 1,000,000,000.
    pub number: i64,
}

/// An event by its name, and the condition under which it is handled, if it has one.
#[derive(Clone, Copy)]
pub struct Event<'a> {
    pub name: &'a [u8],
    pub condition: Option<EventCondition<'a>>,
}
