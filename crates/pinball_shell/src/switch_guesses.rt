//! The switches of a plan, found by a guess.

ghost use Rattle.std.specs.Prelude.{◌≡◌, ◌<◌, Some, IsTrue, length};
ghost use Rattle.plan_tables.specs.PlanView.{switch_named};

use plan_tables::{Plan, SwitchId};
use std::alloc::{AllocError, Global};

/// How many guesses there are: four times as many as there can be switches, so that few of them share a
/// place.
const GUESSES: usize = 1024;

/// Which switch may have a name, at the place of the name that `place_of` gives. A guess is compared with
/// the name, and may be wrong. If it is right, no hash of the name is needed, which takes longer.
#[derive(Drop)]
pub struct SwitchGuesses {
    guesses: Vec<SwitchId>,
    ghost count: { length guesses.items ≡ 1024 },
}

impl SwitchGuesses {
    /// The guesses for the switches of a plan. Fails only by memory.
    pub fn new(alloc: Global, plan: &Plan) -> Result<SwitchGuesses, AllocError> {
        let mut guesses = vec![in alloc; SwitchId(0); GUESSES]?;
        guess_all(&mut guesses, plan);
        Ok(SwitchGuesses { guesses })
    }

    /// The switch of this name, as the plan itself finds it, whatever was guessed: none if no switch has it.
    #[inline]
    pub fn find(&self, plan: &Plan, name: &[u8]) -> Option<SwitchId>
        ensures { result ≡ switch_named plan.now name.now }
    {
        let guess = self.guesses[place_of(name)];
        if has_name(plan, guess, name) {
            Some(guess)
        } else {
            plan.find_switch(name)
        }
    }
}

/// Puts each switch at the place of its name. Of several at one place the last one stays.
fn guess_all(guesses: &mut [SwitchId], plan: &Plan)
    requires { length guesses.old ≡ 1024 }
    ensures { length guesses.new ≡ length guesses.old }
{
    for number in 0..plan.switch_count() {
        let switch = SwitchId(number as u16);
        guesses[place_of(plan.switch_name(switch))] = switch;
    }
}

/// The place of a name among the guesses, by its length and its last three bytes: at the end most names differ. The
/// product spreads them, and its middle bits depend on all of these.
fn place_of(name: &[u8]) -> usize
    ensures { result < 1024 }
{
    let [.., third, second, last] = name else {
        return 0;
    };
    let length = (name.len() % 256) as u8;
    let product = u32::from_le_bytes([*last, *second, *third, length]).wrapping_mul(0x9E37_79B1);
    (product >> 16) as usize % GUESSES
}

/// Whether the plan has this switch, and it has this name. No other switch has the name then.
fn has_name(plan: &Plan, switch: SwitchId, name: &[u8]) -> bool
    ensures { IsTrue result → switch_named plan.now name.now ≡ Some switch }
{
    if switch.0 as usize >= plan.switch_count() {
        return false;
    }
    plan.switch_name(switch) == name
}
