//! The words of the command line: what they ask for, as the kit's `clap` reads them.
#![tactic(auto)]

pub mod ask;
pub mod live;
pub mod program;

pub use ask::{Ask, AskFault, command};
pub use live::{LiveAsk, live_command};
pub use program::program_words;
