//! The bounds of a plan: the most lines that each event can cause, its *weight*, and the most steps that a stimulus
//! can take.
//!
//! Weights bound every cascade. If a plan has none, some events cause each other in a *cycle* without end.
#![tactic(auto)]

mod costs;
pub mod fault;
mod ground;
pub mod law;
mod leaders;
pub mod least;
mod measure;
mod posts;
mod price;
mod releases;
mod steps;
pub mod stimuli;
mod tellings;
pub mod verdict;
mod walk;
pub mod weights;
mod work;
pub mod work_bounds;

pub use fault::RankFault;
pub use law::cycles_or_weights;
pub use least::{find, find_bounded};
pub use stimuli::switch_cost;
pub use verdict::{Bound, verify};
pub use weights::Weights;
pub use work_bounds::{WorkBound, work_bound};
