//! What is wrong with the rows of a configuration.
//!
//! No plan is needed for that: each fault is about a name or a number, at the place where it is written.
#![tactic(auto)]

mod as_written;
mod ball_faults;
mod coil_faults;
mod collector;
pub mod fault;
pub mod fault_text;
mod once;
mod reserved;
mod routes;
pub mod rows;
mod shot_faults;
mod targets;
pub mod text_name;
mod variable_faults;

pub use fault::{RowFault, RowFaultKind};
pub use fault_text::write_row_fault;
pub use rows::faults_of_rows;
pub use setting_values::values::NameText;
pub use text_name::TextName;
