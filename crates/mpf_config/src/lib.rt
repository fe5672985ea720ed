//! The rows of a configuration: what a bundle of texts says, entry by entry, with lines.
#![tactic(auto)]

pub mod bundle;
pub mod config;
pub mod escape;
pub mod fault;
mod listed;
mod listed_mode;
mod modes;
pub mod notes;
mod sections;
mod spot;
mod taken;
mod texts;
mod unread;
mod version;

pub use bundle::{mode_names, read_bundle};
pub use config::{
    CoilAction, Config, Content, ControlAction, Debounce, MachineText, ModeText, Note, NoteKind,
    Section,
};
pub use escape::{escaped_makes_no_line, write_escaped};
pub use fault::{BundleFault, BundleFaultKind, ConfigFault, write_fault};
// The sections: their names, and their entries by the names of their settings.
pub use mpf_sections::{
    BallDeviceEntry, BallSaveEntry, BlockEvents, Coil, CoilItem, CoilPlayer, CoilRule,
    ControlEvent, CounterEntry, EventPlayer, GameSettings, HandledAt, ModeSettings, MultiballEntry,
    NameAt, RuleKind, Shot, ShotGroup, ShotProfile, StepBlock, Switch, TimerEntry, VariableItem,
    VariablePlayer, as_ball_device, as_ball_save, as_coil, as_coil_item, as_coil_player,
    as_coil_rule, as_control, as_counter, as_event_player, as_game, as_handled, as_multiball,
    as_shot, as_shot_group, as_shot_profile, as_state, as_step_block, as_switch, as_timer,
    as_variable_item, as_variable_player, blocks, coil_rules, coils, game, listed_modes, min_balls,
    mode_settings, timers, typed,
};
pub use mpf_tables::tables::{
    ACCRUALS_NAME, AUTOFIRE_COILS_NAME, BALL_DEVICES_NAME, BALL_SAVES_NAME, COIL_PLAYER_NAME,
    COILS_NAME, COUNTERS_NAME, DEFAULT_PROFILE, EVENT_PLAYER_NAME, FLIPPERS_NAME, GAME_NAME,
    MACHINE_SECTION_NAME, MODE_NAME, MODES_NAME, MULTIBALLS_NAME, PLAYFIELD, SEQUENCES_NAME,
    SHOT_GROUPS_NAME, SHOT_PROFILES_NAME, SHOTS_NAME, SWITCHES_NAME, TIMERS_NAME,
    VARIABLE_PLAYER_NAME,
};
pub use notes::write_note;
pub use section_tables::rows::{Entry, PlayerEntry};
pub use setting_values::values::{Fields, Guard, Handler, KeyedValues, Name, Plain, Value};
pub use texts::{MACHINE_NAME, mode_text_name};
