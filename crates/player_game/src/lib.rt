//! The players of a game, and the steps of the game.
#![tactic(auto)]

pub mod event_choices;
pub mod game;
pub mod law;
pub mod players;
mod slot;
mod special;

pub use event_choices::{asks_for_ball, choices, is_drain, tells_scores};
pub use game::{Game, GamePhase, GameWork};
pub use law::{players_stay_few, steps_are_choices};
pub use players::Players;
