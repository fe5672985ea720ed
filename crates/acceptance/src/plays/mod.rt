//! Tests of the calls that play: bundles and logs, on boards that take each command and on boards that fault, and whole
//! games beside a plain model.

mod ball_games;
mod failures;
mod live;
mod machine;
mod row;
mod tables;
