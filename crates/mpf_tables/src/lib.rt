//! The table of each section: its settings with their kinds, and what applies if a setting is left out.
//!
//! [`shape_of`] gives the table of a section in a text of the machine or of a mode.
#![tactic(auto)]

pub mod tables;

pub use tables::{TextKind, shape_of, tables_are_right};
