//! The tables of a plan: names by number, what is bound to each event, the rows of devices, and the rules of
//! the game.
#![tactic(auto)]

pub mod devices;
pub mod effect_lists;
pub mod entries;
pub mod names;
mod placing;
pub mod table;
pub mod tables;
mod works;

pub use devices::{
    Act, BallSettings, BallTarget, BankSettings, DeviceRow, RowId, Settings, Telling,
};
pub use effect_lists::{
    MULTIBALL_ENDED, MULTIBALL_STARTED, SAVE_DISABLED, SAVE_ENABLED, SAVE_SAVING,
};
pub use entries::{
    Action, Binding, BindingId, CoilId, CoilLimits, Condition, EventId, GAME_EVENTS, GameEvent,
    GameRules, ListId, Listener, Mode, ModeEntry, ModeEvent, ModeEvents, ModeId, Owner,
    SwitchEntry, SwitchId, SwitchKind, Target, VariableId, Work,
};
pub use mpf_values::Comparison;
pub use names::{NameHashing, NameSet, NameSets, NameTable};
pub use table::{TABLES, Table};
pub use tables::{Plan, Tables};
