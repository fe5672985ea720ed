//! What the entries of all texts define, found by name.
//!
//! Entries name coils and switches of the machine text, and shots and profiles of all texts.
#![tactic(auto)]

pub mod by_name;
pub mod definitions;
pub mod game_events;
pub mod profile;
mod shots;

pub use definitions::Definitions;
pub use game_events::{GAME_EVENT_NAMES, is_reserved_game_event};
pub use profile::Profile;
