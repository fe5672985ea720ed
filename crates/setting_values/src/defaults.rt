//! What applies if a text is left out.

ghost use Rattle.std.specs.Prelude.{◌≡◌};
ghost use Rattle.setting_values.specs.KeyRules.{plain_default, plain_lacks};
ghost use Rattle.setting_values.specs.KindView.{absent_view};
ghost use Rattle.setting_values.specs.View.{plain_view};

use crate::kinds::Absent;
use crate::values::Plain;

/// The value of a text that is not written.
pub fn default_plain(absent: Absent) -> Plain
    ensures { plain_view result ≡ plain_default (absent_view absent) }
{
    match absent {
        Absent::Required => Plain::Nothing,
        Absent::Nothing => Plain::Nothing,
        Absent::Flag(b) => Plain::Flag(b),
        Absent::Number(n) => Plain::Number(n),
        Absent::Time(ms) => Plain::Time(ms),
        Absent::Power(n) => Plain::Power(n),
        Absent::Word(word) => Plain::Word(word),
        Absent::Name(name) => Plain::DefaultName(name),
    }
}

/// Whether a required text is missing.
pub fn plain_lacks(absent: Absent, value: &Plain) -> bool
    ensures { result ≡ plain_lacks (absent_view absent) (plain_view value.now) }
{
    matches!((absent, value), (Absent::Required, Plain::Nothing))
}
