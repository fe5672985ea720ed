//! The values of settings, each read by its kind.
//!
//! A [`kinds::Kind`] says what the value of a setting is to be: one text, a list, maps, or a map of names. [`value`]
//! reads the value from a node, or gives its first fault. The crate above, which reads whole sections, also calls the
//! readers of single texts, names, lists of names and mappings that [`value`] is made of.
#![tactic(auto)]

mod by_kind;
mod defaults;
mod fields;
mod items;
pub mod kinds;
mod lists;
mod nodes;
mod scalars;
pub mod values;

pub use by_kind::value;
pub use defaults::{default_plain, plain_lacks};
pub use items::each;
pub use lists::names;
pub use nodes::{MapPairs, pairs};
pub use scalars::{is_name, name_of, scalar, word_in};
