//! A machine that runs live: it hears the lines of a log one by one, and answers each before it
//! hears the next.
#![tactic(auto)]

pub mod law;
pub mod line_link;
pub mod link;
pub mod live;
mod read_buffer;
pub mod wire;
pub mod work;

pub use law::{answers_come_first, live_is_play, transcripts_lose_nothing};
pub use line_link::LineLink;
pub use link::{LONGEST_LINE, Link};
pub use live::run_live;
pub use wire::{LinkWriter, Wire};
pub use work::{MOST_STEPS, admits, tell_work};
