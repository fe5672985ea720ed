//! The plan of a configuration: its names by number, and what its entries bind to events.
#![tactic(auto)]

mod actions;
pub mod build;
mod draft;
pub mod fault;
mod fill;
mod lacking;
mod names;
mod numbering;

pub use build::{plan, plan_complete};
pub use fault::PlanFault;
