//! The lists that blocks answer.

ghost use Rattle.std.specs.Prelude.{◌≡◌, [], ◌∷◌, if◌then◌else◌};
ghost use Rattle.device_objects.specs.Blocks.{update, hit, complete};

use device_objects::Outcome;
use device_objects::outcome::one_list;

/// The list of a block that is reset.
pub(crate) fn reset() -> Outcome
    ensures { result.items ≡ update ∷ [] }
{
    one_list(0)
}

/// The lists of a block that is hit, and completes or not.
pub(crate) fn hit(completes: bool) -> Outcome
    ensures { result.items ≡ if completes then update ∷ hit ∷ complete ∷ [] else update ∷ hit ∷ [] }
{
    let mut lists = one_list(0);
    lists.push(1);
    if completes {
        lists.push(2);
    }
    lists
}
