//! A board with its coil guard, which decides for each command whether the board gets it.
#![tactic(auto)]

pub mod driver;
pub mod report;

pub use driver::Driver;
pub use report::ShutReport;
