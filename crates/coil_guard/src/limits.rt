//! What a coil may be sent.

ghost use Rattle.std.specs.Prelude.{◌≡◌};
ghost use Rattle.coil_guard.specs.Limits.{is_pulse_within, is_hold_within};

use plan_tables::CoilLimits;

/// Whether a pulse of so many milliseconds, with this power, is within the limits.
pub(crate) fn is_pulse_within(limits: CoilLimits, ms: u32, power: u16) -> bool
    ensures { result ≡ is_pulse_within limits ms power }
{
    1 <= ms && ms <= limits.max_pulse_ms && power <= limits.max_pulse_power
}

/// Whether the coil may be held with this power.
pub(crate) fn is_hold_within(limits: CoilLimits, power: u16) -> bool
    ensures { result ≡ is_hold_within limits power }
{
    limits.may_hold && power <= limits.max_hold_power
}
