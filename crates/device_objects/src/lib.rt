//! The interface of devices, their states, and what each call does.
#![tactic(auto)]

mod accrual;
pub mod answers;
pub mod autofire;
pub mod ball_device;
pub mod ball_save;
pub mod bank;
pub mod boxed;
mod counter;
pub mod device;
pub mod flags;
pub mod flipper;
pub mod kinds;
pub mod law;
pub mod multiball;
pub mod outcome;
pub mod same;
mod sequence;
pub mod state;
pub mod timer;
pub mod values;

pub use answers::Outcomes;
pub use device::{Call, Device, Outcome};
pub use kinds::{first_state, has_shape, is_same_state, outcomes};
pub use same::is_same_row;
pub use state::{
    AccrualSlot, Attempt, AutofireState, BallState, BallSwitch, BankSlot, CounterSlot, DeviceState,
    Eject, FlipperState, GREATEST_ATTEMPT, MultiballState, SaveState, SequenceSlot, TimerState,
    World,
};
