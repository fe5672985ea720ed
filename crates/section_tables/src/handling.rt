//! The entries of players: events, each with a value.

ghost use Rattle.std.specs.Prelude.{◌≡◌, ◌≢◌, ℕ, ◌<◌, List, IfOk, IfErr};
ghost use Rattle.section_tables.specs.Rows.{PlayerEntry as Row};
ghost use Rattle.section_tables.specs.View.{players_view};
ghost use Rattle.section_tables.specs.Gives.{ArePlayersOf, read_players, GivesPlayers};
ghost use Rattle.section_tables.specs.TableAnswers.{GivesPlayer, read_player};

use crate::rows::PlayerEntry;
use crate::table::PlayerKinds;
use config_faults::{BundleFaultKind, ConfigFault, spot_of};
use setting_values::{each, pairs, scalar, value};
use std::alloc::Global;
use yaml_subset::tree::{Key, Tree};

// An entry of a player; or a fault: BadValue if its key does not say what it is to say, or
// that of its value.
#[tactic(auto, unfolding(crate::specs::Reading::player_at))]
fn player(
    alloc: Global,
    kinds: PlayerKinds,
    text: &[u8],
    pair: &(Key, Tree),
) -> Result<PlayerEntry, ConfigFault>
    ensures { GivesPlayer result (read_player kinds text.now pair.now) }
{
    let key = &pair.0;
    let spot = spot_of(text, key);
    let Some(event) = scalar(alloc, kinds.key, key.line, &key.text)? else {
        return Err(ConfigFault::Bundle(spot.fault(alloc, BundleFaultKind::BadValue)?));
    };
    let value = value(alloc, spot, kinds.value, &pair.1)?;
    Ok(PlayerEntry { event, value })
}

// The entries of a player; or the first fault.
#[tactic(auto, unfolding(crate::specs::Reading::players_at))]
fn read_players(
    alloc: Global,
    kinds: PlayerKinds,
    text: &[u8],
    pair: &(Key, Tree),
) -> Result<Vec<PlayerEntry>, ConfigFault>
    ensures { GivesPlayers result (read_players kinds text.now pair.now) }
{
    let below = pairs(alloc, spot_of(text, &pair.0), &pair.1)?;
    each(
        alloc,
        below.pairs,
        |pair|
            ensures { GivesPlayer result (read_player kinds text.entry.now pair.now) }
        { player(alloc, kinds, text, pair) },
    )
}

/// The entries of a player with keys and values of these kinds, in the text of this name.
///
/// # Errors
///
/// `NoMemory`, or the first fault: `BadValue` at the section if it is no mapping, and at a key that
/// is not of its kind; and the faults of values, each at its key, like those of a setting.
pub fn players(
    alloc: Global,
    kinds: PlayerKinds,
    text: &[u8],
    pair: &(Key, Tree),
) -> Result<Vec<PlayerEntry>, ConfigFault>
    // What is answered are the entries of the player.
    ensures found { IfOk result (λ xs. ArePlayersOf 1024 kinds pair.now (players_view xs)) }

    // It has no others, however many items its lists may have.
    ensures only { IfOk result (λ xs. (longest : ℕ) (rows : List Row) → ArePlayersOf longest kinds pair.now rows
        → rows ≡ players_view xs) }

    // A player that is refused, but for want of memory, has entries only if a list is too long.
    ensures refused { IfErr result (λ e. e ≢ ConfigFault.NoMemory → (longest : ℕ) (rows : List Row)
        → ArePlayersOf longest kinds pair.now rows → 1024 < longest) }

    // Which fault it is, with its line and key, is what reading from the first entry gives.
    ensures exact { GivesPlayers result (read_players kinds text.now pair.now) }
{
    read_players(alloc, kinds, text, pair)
}
