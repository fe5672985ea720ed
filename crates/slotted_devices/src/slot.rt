//! The slots of a device: one for each player, or one for all.

ghost use Rattle.std.specs.Prelude.{◌≡◌};
ghost use Rattle.device_objects.specs.Slots.{is_of_other_game, slot_in_use};

use device_objects::World;

/// The slot on which a device acts: the current player's, if each player has one, and else the first.
/// None if each player has a slot and there is no current player.
pub fn slot_in_use(persist: bool, world: World) -> Option<usize>
    ensures { result ≡ slot_in_use persist world }
{
    if !persist {
        return Some(0);
    }
    if world.player == 0 {
        return None;
    }
    Some(world.player - 1)
}

/// Whether a slot is left over from another game; then it counts as a first slot.
pub fn is_of_other_game(persist: bool, world: World, game: u64) -> bool
    ensures { result ≡ is_of_other_game persist world game }
{
    persist && game != world.games
}
