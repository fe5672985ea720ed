//! The entries of `machine`, `game` and `variable_player`, by the names of their settings.

ghost use Rattle.std.specs.Prelude.{◌≡◌};
ghost use Rattle.mpf_sections.specs.TypedGame.{variable_action_of};
ghost use Rattle.mpf_sections.specs.TypedOf.{IsVariablePlayerOf, IsVariableItemOf, IsGameOf, min_balls_in};

use crate::numbers::{natural, natural_default};
use crate::section::{Content, Section};
use crate::typed::{HandledAt, section_named};
use crate::values::{change, handled_event, keyed_values, word_field};
use machine_settings::VariableAction;
use mpf_tables::tables::{GAME, MACHINE, MACHINE_SECTION_NAME};
use section_tables::rows::{Entry, PlayerEntry};
use setting_values::values::{KeyedValues, Name};

/// What is done with a variable when an event is handled.
#[derive(Clone, Copy)]
pub struct VariableItem<'a> {
    pub variable: &'a Name,
    /// `Add` by default.
    pub action: VariableAction,
    /// The setting `int`: from -1,000,000,000 to 1,000,000,000.
    pub number: i64,
}

/// An entry of `variable_player`: what is done with variables when the event is handled, in order.
#[derive(Clone, Copy)]
pub struct VariablePlayer<'a> {
    pub event: HandledAt<'a>,
    /// Each to be read with [`as_variable_item`].
    pub items: &'a [KeyedValues],
}

/// What the section `game` says.
#[derive(Clone, Copy)]
pub struct GameSettings {
    /// How many balls each player has: from 1 to 99, and 3 by default.
    pub balls_per_game: u32,
    /// How many players there may be: from 1 to 4, and 4 by default.
    pub max_players: u32,
}

// The places of the fields that belong to a variable in an entry of `variable_player`.
const INT: usize = 0;

const ACTION: usize = 1;

// Those of the settings in the table of `game`.
const BALLS_PER_GAME: usize = 0;

const MAX_PLAYERS: usize = 1;

// That of the setting in the table of `machine`.
const MIN_BALLS: usize = 0;

const SET: &[u8] = b"set";

// What a word does with a variable.
fn action_of(word: &[u8]) -> VariableAction
    ensures { result ≡ variable_action_of word.now }
{
    if word == SET {
        return VariableAction::Set;
    }
    VariableAction::Add
}

/// What belongs to a variable in an entry of `variable_player`, by the names of its fields.
#[tactic(auto, unfolding(crate::specs::TypedGame::variable_item_of))]
pub fn as_variable_item(pair: &KeyedValues) -> VariableItem<'_>
    ensures { IsVariableItemOf pair.now result }
{
    let values = pair.values.as_slice();
    VariableItem {
        variable: &pair.name,
        action: action_of(word_field(values, ACTION)),
        number: change(values, INT),
    }
}

/// An entry of `variable_player`, by the names of what it has.
#[tactic(auto, unfolding(crate::specs::TypedGame::variable_player_of))]
pub fn as_variable_player(player: &PlayerEntry) -> VariablePlayer<'_>
    ensures { IsVariablePlayerOf player.now result }
{
    VariablePlayer {
        event: handled_event(&player.event),
        items: keyed_values(&player.value),
    }
}

/// The entry that the section `game` is, by the names of its settings.
#[tactic(auto, unfolding(crate::specs::TypedGame::game_of))]
pub fn as_game(entry: &Entry) -> GameSettings
    ensures { IsGameOf entry.now result }
{
    GameSettings {
        balls_per_game: natural(entry, GAME, BALLS_PER_GAME),
        max_players: natural(entry, GAME, MAX_PLAYERS),
    }
}

/// How many balls have to be there for a game to begin: what the section `machine` says, up to 99;
/// 1 if it says nothing, and if there is no such section.
pub fn min_balls(sections: &[Section]) -> u32
    ensures { result ≡ min_balls_in sections.now }
{
    match section_named(sections, MACHINE_SECTION_NAME) {
        Some(Content::Entry(entry)) => natural(entry, MACHINE, MIN_BALLS),
        _ => natural_default(MACHINE, MIN_BALLS),
    }
}
