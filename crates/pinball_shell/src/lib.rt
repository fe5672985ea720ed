//! The program's work as functions from the bytes of a reader to the bytes of a writer.
#![tactic(auto)]

pub mod check;
pub mod fault;
pub mod law;
mod log_line;
pub mod log_player;
pub mod play;
mod refusal;
mod reply;
mod switch_guesses;
pub mod text;

pub use check::{
    BUNDLE_LIMIT, check_bundle, check_text, load_bundle, load_text, verify_bundle, verify_text,
};
pub use fault::{Failure, ShellFault, Verdict, status};
pub use law::{
    answers_fix_the_play, any_certificate_plays_the_same, log_gives_one_play,
    printed_certificate_is_verified,
};
pub use log_player::LogPlayer;
pub use play::{Stop, play_text, worse};
pub use text::{append_text, join, read_all};
