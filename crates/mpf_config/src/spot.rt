//! The lines of faults.

ghost use Rattle.std.specs.Prelude.{◌≡◌};
ghost use Rattle.config_faults.specs.Faults.{spot_view};
ghost use Rattle.mpf_config.specs.Reading.{line_spot};

use config_faults::Spot;

/// Stands for the text or the key if a fault has none.
pub const NONE: &[u8] = b"-";

/// A line of a text as a whole, or of the bundle itself.
pub fn line_of<'a>(text: &'a [u8], line: u32) -> Spot<'a>
    ensures { spot_view result ≡ line_spot text.now line }
{
    Spot {
        text,
        line,
        key: NONE,
    }
}
