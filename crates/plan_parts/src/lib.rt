//! What a configuration gives to a plan: the parts of each of its rows, by names.
//!
//! This layer is between the rows of texts and the tables of a plan: each section has a file with what its entries
//! give. The maker of plans sees parts alone, whatever section they come from.
#![tactic(auto)]

pub mod collect;
mod collect_balls;
mod collect_coils;
mod collect_devices;
mod collect_handled;
mod collect_saves;
mod collect_shots;
mod collect_variables;
pub mod effects;
pub mod names;
pub mod row_parts;

pub use collect::collect_row;
pub use effects::{Deed, Effect, EffectLists};
pub use names::{
    NamePieces, is_whole, join_pieces, mode_event_name, player_event, whole, write_name,
};
pub use row_parts::{HandledName, ModeControl, RowHead, RowParts, RowText, Whose};
