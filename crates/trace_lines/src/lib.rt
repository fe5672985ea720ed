//! The lines of a trace, as text: put together on a page before they are written.
#![tactic(auto)]

mod front;
pub mod page;
mod phrase;
pub mod printed_plan;
pub mod trace;

pub use page::{Page, WriteFailed};
pub use printed_plan::PrintedPlan;
pub use trace::{put_trace, write_off};
