//! The values of settings: what the text of a setting says.
//!
//! Each reader takes the bytes of one scalar and gives its value, or [`BadValue`] exactly if there
//! is none. The files of `specs/` define what the value of a text is, one for each kind of value. No
//! reader but [`list`] takes memory.
#![tactic(auto)]

mod booleans;
mod bytes;
mod decimals;
mod digits;
mod events;
pub mod fault;
pub mod handled;
mod integers;
mod items;
mod lists;
mod names;
mod powers;
mod times;

pub use booleans::boolean;
pub use events::event;
pub use fault::{BadValue, ListFault};
pub use handled::{Comparison, Event, EventCondition};
pub use integers::integer;
pub use items::Item;
pub use lists::list;
pub use names::name;
pub use powers::power;
pub use times::time;
