//! The settings of a machine's parts that are words, numbers and flags, as a configuration and as a plan have them.
//!
//! What is set by a name, such as a coil or an event, is not here: in a plan it is a number.
#![tactic(auto)]

pub mod settings;
pub mod words;

pub use settings::{
    BlockSettings, CounterSettings, EjectSettings, MultiballSettings, SaveSettings, StepSettings,
    TimerSettings,
};
pub use words::{Contact, Direction, VariableAction};
