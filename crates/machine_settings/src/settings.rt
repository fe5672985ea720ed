//! The settings of devices.

use crate::words::Direction;

/// The settings that all logic blocks have.
#[derive(Clone, Copy, PartialEq, Eq)]
pub struct BlockSettings {
    /// Whether the block is enabled at first: it has no `enable_events`.
    pub enabled: bool,
    /// Whether completing resets it.
    pub reset_on_complete: bool,
    /// Whether completing disables it.
    pub disable_on_complete: bool,
    /// Whether each player has a state of their own, which lasts until the game ends.
    pub persist: bool,
}

/// A counter.
#[derive(Clone, Copy, PartialEq, Eq)]
pub struct CounterSettings {
    pub block: BlockSettings,
    /// Its value at first.
    pub start: i64,
    /// By how much a hit moves the value.
    pub interval: i64,
    pub direction: Direction,
    /// It completes when its value reaches or passes this one; none: never.
    pub complete: Option<i64>,
    /// A hit less than this many milliseconds after the last counted hit is ignored.
    pub window: u32,
}

/// An accrual, or a sequence.
#[derive(Clone, Copy, PartialEq, Eq)]
pub struct StepSettings {
    pub block: BlockSettings,
    /// How many steps it has: at most 16.
    pub steps: usize,
}

/// A timer.
#[derive(Clone, Copy, PartialEq, Eq)]
pub struct TimerSettings {
    /// Its value at first.
    pub start: i64,
    /// It completes when its value reaches or passes this one while it runs; none: never.
    pub end: Option<i64>,
    pub direction: Direction,
    /// The milliseconds from one tick to the next: at least 1.
    pub interval: u32,
    /// Whether it starts running when its mode starts.
    pub start_running: bool,
    /// Whether it starts again from its first value when it completes.
    pub restart: bool,
}

/// How a ball device counts its balls, and ejects them.
#[derive(Clone, Copy, PartialEq, Eq)]
pub struct EjectSettings {
    /// How many milliseconds a ball switch has to be active before its ball counts: at least 1.
    pub entrance_delay: u32,
    /// How many milliseconds a ball switch has to be inactive before its ball is gone: at least 1.
    pub exit_delay: u32,
    /// An attempt to eject a ball is over after this many milliseconds: at least 1.
    pub timeout: u32,
    /// How many attempts it makes at most to eject one ball; none: there is no limit.
    pub max_attempts: Option<u16>,
    /// Whether a ball that leaves while none is ejected counts as ejected, as from a plunger that is pulled by
    /// hand.
    pub mechanical: bool,
}

/// A ball save, which gives balls back that drain while it is active.
#[derive(Clone, Copy, PartialEq, Eq)]
pub struct SaveSettings {
    /// It is disabled so many milliseconds after it was enabled; 0: it has no end of its own.
    pub active_time: u32,
    /// How many balls it saves before it is active no more: from 1 to 99.
    pub balls: u8,
}

/// A multiball.
#[derive(Clone, Copy, PartialEq, Eq)]
pub struct MultiballSettings {
    /// At least so many balls are in play from its start on: from 2 to 99.
    pub balls: u8,
}
