//! The sections of a text: the entries of each by the names of their settings.
//!
//! A [`Section`] has the entries that were read by its table. They are rows of values in the order
//! of the table: [`as_switch`], [`as_event_player`], [`as_coil`], [`as_coil_player`],
//! [`as_variable_player`], [`as_coil_rule`], [`as_counter`], [`as_step_block`], [`as_timer`],
//! [`as_shot`], [`as_shot_group`], [`as_shot_profile`], [`as_ball_device`], [`as_ball_save`],
//! [`as_multiball`], [`as_game`], [`min_balls`], [`as_mode_settings`] and [`mode_settings`] give
//! each setting by its name.
#![tactic(auto)]

pub mod balls;
pub mod blocks;
pub mod coil_rules;
pub mod coils;
pub mod game;
mod numbers;
pub mod saves;
pub mod section;
pub mod shots;
pub mod timers;
pub mod typed;
mod values;
pub mod words;

pub use balls::{BallDeviceEntry, as_ball_device};
pub use blocks::{BlockEvents, CounterEntry, StepBlock, as_counter, as_step_block};
pub use coil_rules::{CoilRule, RuleForm, RuleKind, as_coil_rule};
pub use coils::{Coil, CoilItem, CoilPlayer, as_coil, as_coil_item, as_coil_player};
pub use game::{
    GameSettings, VariableItem, VariablePlayer, as_game, as_variable_item, as_variable_player,
    min_balls,
};
pub use saves::{BallSaveEntry, MultiballEntry, as_ball_save, as_multiball};
pub use section::{Content, Section};
pub use shots::{Shot, ShotGroup, ShotProfile, as_shot, as_shot_group, as_shot_profile, as_state};
pub use timers::{ControlEvent, TimerEntry, as_control, as_timer};
pub use typed::{
    EventPlayer, HandledAt, ModeSettings, NameAt, Switch, as_event_player, as_handled,
    as_mode_settings, as_switch, listed_modes, mode_settings,
};
pub use words::{CoilAction, ControlAction, Debounce};
