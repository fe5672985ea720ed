//! The lists that a call of a device can answer, and what several kinds answer.

ghost use Rattle.std.specs.Prelude.{◌≡◌, ◌+◌, ◌<◌, ◌≤◌, [], ◌∷◌, ◌++◌, length, map};
ghost use Rattle.arrayvec.specs.ArrayVec.{array_vec_len};
ghost use Rattle.device_objects.specs.Blocks.{of_block, resetting};
ghost use Rattle.device_objects.specs.Outcomes.{of_switch, only_if, silent};

use crate::device::Outcome;
use arrayvec::ArrayVec;
use machine_settings::BlockSettings;
use plan_tables::Act;

/// What a call of a device can answer, whatever the device's state. A hit of a shot has most outcomes:
/// nothing, or in each of 16 states a hit that completes its group, or one that does not.
pub type Outcomes = ArrayVec<Outcome, 33>;

pub(crate) fn none() -> Outcomes
    ensures none { result.items ≡ [] }
    ensures count { array_vec_len result ≡ 0 }
{
    ArrayVec::new()
}

/// One answer more.
pub(crate) fn with(all: Outcomes, lists: &[u16]) -> Outcomes
    requires room { array_vec_len all < 33 }
    requires short { length lists.now ≤ 4 }
    ensures answers { map (λ o. o.items) result.items ≡ map (λ o. o.items) all.items ++ lists.now ∷ [] }
    ensures count { array_vec_len result ≡ array_vec_len all + 1 }
{
    let mut all = all;
    let mut answer = Outcome::new();
    let _ = answer.try_extend_from_slice(lists);
    all.push(answer);
    all
}

/// One answer more, if this holds.
pub(crate) fn with_if(all: Outcomes, holds: bool, lists: &[u16]) -> Outcomes
    requires room { array_vec_len all < 33 }
    requires short { length lists.now ≤ 4 }
    ensures answers { map (λ o. o.items) result.items ≡ map (λ o. o.items) all.items ++ only_if holds (lists.now ∷ []) }
    ensures count { array_vec_len result ≤ array_vec_len all + 1 }
{
    if holds { with(all, lists) } else { all }
}

/// No list at all.
pub(crate) fn silent() -> Outcomes
    ensures answers { map (λ o. o.items) result.items ≡ silent }
    ensures count { array_vec_len result ≡ 1 }
{
    with(none(), &[])
}

/// A block that is reset.
fn resetting(block: &BlockSettings) -> Outcomes
    ensures { map (λ o. o.items) result.items ≡ resetting block.now }
{
    with(with_if(none(), block.persist, &[]), &[0])
}

/// The acts that all blocks know.
pub(crate) fn of_block(block: &BlockSettings, act: Act) -> Outcomes
    ensures { map (λ o. o.items) result.items ≡ of_block block.now act }
{
    match act {
        Act::Reset | Act::Restart => resetting(block),
        _ => silent(),
    }
}

/// The list of a device whose only switch, which is switch 0, changes.
pub(crate) fn of_switch(switch: usize, list: u16) -> Outcomes
    ensures { map (λ o. o.items) result.items ≡ of_switch switch list }
{
    with_if(silent(), switch == 0, &[list])
}
