//! One coil.

ghost use Rattle.std.specs.Prelude.{◌≡◌, ◌<◌, ◌^◌};
ghost use Rattle.coil_guard.specs.CoilStep.{off, is_on_at, is_held_by, takes_pulse, pulse_coil, takes_enable, enabled};
ghost use Rattle.coil_guard.specs.CoilStep.{disable_coil};

use crate::limits::{is_hold_within, is_pulse_within};
use plan_tables::{CoilLimits, Owner};

/// A coil with what its guard remembers of it. Moments are milliseconds.
#[derive(Clone, Copy)]
pub struct CoilState {
    /// What it may be sent.
    pub limits: CoilLimits,
    /// The first moment after its last pulse; 0 if a disable came after that, or without a pulse.
    pub pulse_end: u64,
    /// The moment from which it may be pulsed again. A disable leaves it.
    pub ready: u64,
    /// Who holds it, if anybody does.
    pub holder: Option<Owner>,
}

impl CoilState {
    /// A coil to which nothing has been sent.
    pub(crate) fn off(limits: CoilLimits) -> CoilState
        ensures { result ≡ off limits }
    {
        CoilState {
            limits,
            pulse_end: 0,
            ready: 0,
            holder: None,
        }
    }

    /// Whether the coil is on at the moment, if that is not before the last command to it.
    pub(crate) fn is_on_at(self, now: u64) -> bool
        ensures { result ≡ is_on_at now self }
    {
        now < self.pulse_end || self.holder.is_some()
    }

    /// Whether this owner holds the coil.
    pub(crate) fn is_held_by(self, owner: Owner) -> bool
        ensures { result ≡ is_held_by owner self }
    {
        match self.holder {
            None => false,
            Some(holder) => holder.is(owner),
        }
    }

    /// Whether a pulse is sent, and not skipped.
    pub(crate) fn takes_pulse(self, ms: u32, power: u16, now: u64) -> bool
        ensures { result ≡ takes_pulse ms power now self }
    {
        !self.holder.is_some() && self.ready <= now && is_pulse_within(self.limits, ms, power)
    }

    /// The coil after a pulse is sent. It rests for as long as it was on, so that it is on for half
    /// of the time at most, and two pulses never join.
    pub(crate) fn pulse_coil(self, ms: u32, now: u64) -> CoilState
        requires { now < 2 ^ 40 }
        ensures { result ≡ pulse_coil ms now self }
    {
        CoilState {
            limits: self.limits,
            pulse_end: now + u64::from(ms),
            ready: now + 2 * u64::from(ms),
            holder: self.holder,
        }
    }

    /// Whether an enable is sent, and not skipped.
    pub(crate) fn takes_enable(self, power: u16) -> bool
        ensures { result ≡ takes_enable power self }
    {
        !self.holder.is_some() && is_hold_within(self.limits, power)
    }

    /// The coil after an enable is sent for the owner.
    pub(crate) fn enabled(self, owner: Owner) -> CoilState
        ensures { result ≡ enabled owner self }
    {
        CoilState {
            limits: self.limits,
            pulse_end: self.pulse_end,
            ready: self.ready,
            holder: Some(owner),
        }
    }

    /// The coil after a disable is sent, which ends a pulse and a hold alike.
    pub(crate) fn disable_coil(self) -> CoilState
        ensures { result ≡ disable_coil self }
    {
        CoilState {
            limits: self.limits,
            pulse_end: 0,
            ready: self.ready,
            holder: None,
        }
    }
}
