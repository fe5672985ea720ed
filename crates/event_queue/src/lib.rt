//! The queue of posted events, the handlers of each event, and the alarms of devices.
#![tactic(auto)]

pub mod alarms;
pub mod handlers;
pub mod law;
mod orders;
pub mod queue;

pub use alarms::Alarms;
pub use handlers::Handlers;
pub use law::{alarms_give_the_least, first_in_first_out, handlers_are_in_plan_order};
pub use queue::{Full, Posted, Queue};
