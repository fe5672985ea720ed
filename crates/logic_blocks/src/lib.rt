//! Logic blocks and timers: counters, accruals, sequences and timers as devices.
#![tactic(auto)]

pub mod accrual;
pub mod counter;
mod lists;
pub mod mask_accrual;
pub mod sequence;
pub mod timer;

pub use accrual::Accrual;
pub use counter::Counter;
pub use mask_accrual::MaskAccrual;
pub use sequence::Sequence;
pub use timer::Timer;
