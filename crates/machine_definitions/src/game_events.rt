//! The events of the game.

ghost use Rattle.std.specs.Prelude.{◌≡◌};
ghost use Rattle.yaml_subset.specs.Keys.{is_among};
ghost use Rattle.machine_definitions.specs.GameEvents.{reserved_game_events};

use section_tables::is_one_of;

/// The names of the events of the game, that of the start button first. No row may post the others.
pub const GAME_EVENT_NAMES: [&[u8]; 21] = [
    b"sw_start",
    b"game_will_start",
    b"game_starting",
    b"player_added",
    b"game_started",
    b"player_turn_will_start",
    b"player_turn_starting",
    b"player_turn_started",
    b"ball_will_start",
    b"ball_starting",
    b"ball_started",
    b"ball_drain",
    b"ball_will_end",
    b"ball_ending",
    b"ball_ended",
    b"player_turn_will_end",
    b"player_turn_ending",
    b"player_turn_ended",
    b"game_will_end",
    b"game_ending",
    b"game_ended",
];

/// Whether a name is that of an event of the game that no row may post.
pub fn is_reserved_game_event(name: &[u8]) -> bool
    ensures { result ≡ is_among reserved_game_events name.now }
{
    is_one_of(&GAME_EVENT_NAMES[1..], name)
}
