//! The lists that devices answer.

ghost use Rattle.std.specs.Prelude.{◌≡◌, [], ◌∷◌};

use crate::device::Outcome;

/// The outcome of one list, by its number.
pub fn one_list(list: u16) -> Outcome
    ensures { result.items ≡ list ∷ [] }
{
    let mut lists = Outcome::new();
    lists.push(list);
    lists
}
