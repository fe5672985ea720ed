//! Names.

ghost use Rattle.std.specs.Prelude.{◌≡◌, IfOk, IfErr};
ghost use Rattle.mpf_values.specs.Names.{IsName};
ghost use Rattle.mpf_values.specs.Reading.{is_name, name_at};
ghost use Rattle.mpf_values.specs.View.{Gives};

use crate::bytes::has_name_bytes_only;
use crate::fault::BadValue;

/// The most bytes of a name.
const MAX_NAME_LEN: usize = 64;

// Whether a text is a name.
fn is_name(text: &[u8]) -> bool
    ensures { result ≡ is_name text.now }
{
    !text.is_empty() && text.len() <= MAX_NAME_LEN && has_name_bytes_only(text)
}

/// A name: 1 to 64 ASCII letters, digits, `_`, `-` and `.`. Its value is the text itself. Any other
/// text is `BadValue`: the empty one, one of 65 bytes or more, and one with any other byte in it.
#[tactic(auto, unfolding(crate::specs::Reading::name_at))]
pub fn name(text: &[u8]) -> Result<&[u8], BadValue>
    // What is answered is the text, and a name.
    ensures found { IfOk result (λ name. (name.now ≡ text.now) × IsName text.now) }

    // A text that is refused is no name.
    ensures refused { IfErr result (λ _. IsName text.now → ⊥) }

    // The result is what reading the text gives.
    ensures exact { Gives (λ name. name.now) result (name_at text.now) }
{
    if !is_name(text) {
        return Err(BadValue);
    }
    Ok(text)
}
