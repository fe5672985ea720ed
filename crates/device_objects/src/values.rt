//! The values of counters, timers and variables: how far from 0 they may be, and how they move.

ghost use Rattle.std.specs.Prelude.{◌≡◌};
ghost use Rattle.device_objects.specs.Values.{clamp_value, move_value};

use machine_settings::Direction;

/// No value is further from 0.
const GREATEST: i128 = 999_999_999_999_999;

/// The nearest value that there is: at most 999,999,999,999,999 from 0.
#[tactic(auto, unfolding(crate::specs::Values::clamp_value))]
pub fn clamp_value(n: i128) -> i64
    ensures { result ≡ clamp_value n }
{
    if n <= -GREATEST {
        return -GREATEST as i64;
    }
    if GREATEST <= n {
        return GREATEST as i64;
    }
    n as i64
}

/// A value that moves by so much.
pub fn move_value(direction: Direction, by: i64, value: i64) -> i64
    ensures { result ≡ move_value direction by value }
{
    match direction {
        Direction::Up => clamp_value(i128::from(value) + i128::from(by)),
        Direction::Down => clamp_value(i128::from(value) - i128::from(by)),
    }
}
