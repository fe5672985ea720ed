//! The rows of sections, each read by the table of its section.
//!
//! A table says for each setting its key, the kind of its value, and what applies if it is left out. One reader serves
//! all tables: [`entries`] for the entries of a section, [`entry`] for a section that is one entry itself, [`players`]
//! for sections whose keys are events, and [`name_list`] for a section that is a list of names. A [`table::Shape`] says
//! which of these a section needs.
#![tactic(auto)]

mod bare;
mod entry_values;
mod handling;
pub mod rows;
mod sections;
mod settings;
pub mod table;

pub use handling::players;
pub use sections::{entries, entry, name_list};
pub use settings::is_one_of;
