//! What the lines of a moment begin with.

ghost use Rattle.std.specs.Prelude.{◌≡◌, ◌+◌, ◌≤◌, ◌++◌, codes, length, take};
ghost use Rattle.std.specs.Fmt.{decimal};

use itoa::write_digits;
use std::marker::Model;

/// The most digits of a number below 2^64.
pub const DIGITS: usize = 20;

/// How many bytes of a front are copied at once. It has no more.
pub const START: usize = 32;

/// How many bytes ` machine` has.
pub const MACHINE_LENGTH: usize = 8;

/// A moment in milliseconds, as the lines of a trace begin with it: its digits, and what follows
/// them in most lines. They are written once for all lines of the moment.
#[derive(Drop)]
pub struct Front {
    moment: u64,
    /// The digits and ` machine`, and blanks after them.
    text: [u8; START],
    /// How many digits there are.
    digits: usize,
}

impl Model for Front {
    ghost use Rattle.std.specs.Prelude.{◌≡◌, ◌+◌, ◌≤◌, ℕ, ◌++◌, codes, length, take};
    ghost use Rattle.std.specs.Fmt.{decimal};

    ghost Value = { ℕ };

    ghost view = { λ f. f.moment };

    ghost invariant = { λ f. (f.digits ≡ length (decimal f.moment)) × (f.digits ≤ 20)
        × (take (f.digits + 8) f.text ≡ decimal f.moment ++ codes " machine") };
}

impl Front {
    /// The front of the lines of this moment.
    pub fn new(moment: u64) -> Front
        ensures { result ≡ moment }
    {
        let mut room = *b"                     machine                        ";
        let start = write_digits(moment, &mut room, DIGITS);
        let mut text = [b' '; START];
        text.copy_from_slice(&room[start..start + START]);
        Front {
            moment,
            text,
            digits: DIGITS - start,
        }
    }

    /// Makes it the front of the lines of this moment.
    #[inline]
    pub fn turn_to(&mut self, moment: u64)
        ensures { self.new ≡ moment }
    {
        if moment != self.moment {
            self.renew(moment);
        }
    }

    /// As `turn_to`, and slower if it is of this moment already. Nearly all lines are of the moment
    /// of the line before.
    #[cold]
    #[inline(never)]
    fn renew(&mut self, moment: u64)
        ensures { self.new ≡ moment }
    {
        *self = Front::new(moment);
    }

    /// A text that begins with the digits of the moment and ` machine`.
    pub fn text(&self) -> &[u8; START]
        ensures { take (length (decimal self.now) + 8) result.now ≡ decimal self.now ++ codes " machine" }
    {
        &self.text
    }

    /// How many digits the moment has, at most 20.
    pub fn digits(&self) -> usize
        ensures count { result ≡ length (decimal self.now) }
        ensures within { result ≤ 20 }
    {
        self.digits
    }
}
