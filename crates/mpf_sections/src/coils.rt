//! The entries of `coils` and `coil_player`, by the names of their settings.

ghost use Rattle.std.specs.Prelude.{◌≡◌};
ghost use Rattle.mpf_sections.specs.TypedCoils.{may_hold, max_hold_power, coil_action_of};
ghost use Rattle.mpf_sections.specs.TypedOf.{IsCoilPlayerOf, IsCoilItemOf, IsCoilOf};

use crate::numbers::duration_at;
use crate::typed::HandledAt;
use crate::values::{field, flag, handled_event, keyed_values, power_in, pulse, text, word_field};
use crate::words::CoilAction;
use mpf_tables::tables::COILS;
use section_tables::rows::{Entry, PlayerEntry};
use setting_values::values::{KeyedValues, Name};

/// An entry of `coils`. Powers are in thousandths of full power.
#[derive(Clone, Copy)]
pub struct Coil<'a> {
    pub name: &'a Name,
    /// How many milliseconds a pulse lasts of which nothing else is said: 10 by default.
    pub pulse_ms: u32,
    /// How many the longest pulse may last: by default as many as that one.
    pub max_pulse_ms: u32,
    /// The power of a pulse of which nothing else is said: full by default.
    pub pulse_power: u16,
    /// The greatest power of a pulse: full by default.
    pub max_pulse_power: u16,
    /// Whether the coil may be held: if `allow_enable` says so, or `default_hold_power` is above
    /// 0.
    pub may_hold: bool,
    /// The power with which it is held if nothing else is said: the greatest by default.
    pub hold_power: u16,
    /// The greatest power with which it is held. If none is written, it is full power if
    /// `allow_enable` says yes, and `default_hold_power` if not; and 0 without that.
    pub max_hold_power: u16,
}

/// What a coil does when an event is handled. What it does not say is by the coil's own entry.
#[derive(Clone, Copy)]
pub struct CoilItem<'a> {
    pub coil: &'a Name,
    pub action: CoilAction,
    /// How many milliseconds the pulse lasts.
    pub pulse_ms: Option<u32>,
    /// The power of the pulse.
    pub pulse_power: Option<u16>,
    /// The power with which the coil is held.
    pub hold_power: Option<u16>,
}

/// An entry of `coil_player`: what coils do when the event is handled, in order.
#[derive(Clone, Copy)]
pub struct CoilPlayer<'a> {
    pub event: HandledAt<'a>,
    /// Each to be read with [`as_coil_item`].
    pub items: &'a [KeyedValues],
}

// The places of the settings in the table of `coils`.
const DEFAULT_PULSE_MS: usize = 0;

const MAX_PULSE_MS: usize = 1;

const DEFAULT_PULSE_POWER: usize = 2;

const MAX_PULSE_POWER: usize = 3;

const ALLOW_ENABLE: usize = 4;

const DEFAULT_HOLD_POWER: usize = 5;

const MAX_HOLD_POWER: usize = 6;

// Those of the fields that belong to a coil in an entry of `coil_player`.
const ACTION: usize = 0;

const PULSE_MS: usize = 1;

const PULSE_POWER: usize = 2;

const HOLD_POWER: usize = 3;

const ENABLE: &[u8] = b"enable";

const DISABLE: &[u8] = b"disable";

// What a word says that a coil does.
fn action_of(word: &[u8]) -> CoilAction
    ensures { result ≡ coil_action_of word.now }
{
    if word == ENABLE {
        return CoilAction::Enable;
    }
    if word == DISABLE {
        return CoilAction::Disable;
    }
    CoilAction::Pulse
}

// Whether a coil may be held: if that is allowed, or it has a power above 0 to be held with.
fn may_hold(may_enable: bool, power: Option<u16>) -> bool
    ensures { result ≡ may_hold may_enable power }
{
    may_enable || power.unwrap_or(0) > 0
}

// The greatest power with which a coil is held, if this one is written, or none.
fn max_hold_power(own_power: Option<u16>, may_enable: bool, power: Option<u16>) -> u16
    ensures { result ≡ max_hold_power own_power may_enable power }
{
    match (own_power, may_enable) {
        (Some(greatest), _) => greatest,
        (None, true) => 1_000,
        (None, false) => power.unwrap_or(0),
    }
}

/// An entry of `coils`, by the names of its settings.
#[tactic(auto, unfolding(crate::specs::TypedCoils::coil_of))]
pub fn as_coil(entry: &Entry) -> Coil<'_>
    ensures { IsCoilOf entry.now result }
{
    let pulse_ms = duration_at(entry, COILS, DEFAULT_PULSE_MS);
    let may_enable = flag(entry, ALLOW_ENABLE);
    let hold_power = power_in(text(entry, DEFAULT_HOLD_POWER));
    let greatest = max_hold_power(
        power_in(text(entry, MAX_HOLD_POWER)),
        may_enable,
        hold_power,
    );
    Coil {
        name: &entry.name,
        pulse_ms,
        max_pulse_ms: pulse(text(entry, MAX_PULSE_MS)).unwrap_or(pulse_ms),
        pulse_power: power_in(text(entry, DEFAULT_PULSE_POWER)).unwrap_or(1_000),
        max_pulse_power: power_in(text(entry, MAX_PULSE_POWER)).unwrap_or(1_000),
        may_hold: may_hold(may_enable, hold_power),
        hold_power: hold_power.unwrap_or(greatest),
        max_hold_power: greatest,
    }
}

/// What belongs to a coil in an entry of `coil_player`, by the names of its fields.
#[tactic(auto, unfolding(crate::specs::TypedCoils::coil_item_of))]
pub fn as_coil_item(pair: &KeyedValues) -> CoilItem<'_>
    ensures { IsCoilItemOf pair.now result }
{
    let values = pair.values.as_slice();
    CoilItem {
        coil: &pair.name,
        action: action_of(word_field(values, ACTION)),
        pulse_ms: pulse(field(values, PULSE_MS)),
        pulse_power: power_in(field(values, PULSE_POWER)),
        hold_power: power_in(field(values, HOLD_POWER)),
    }
}

/// An entry of `coil_player`, by the names of what it has.
#[tactic(auto, unfolding(crate::specs::TypedCoils::coil_player_of))]
pub fn as_coil_player(player: &PlayerEntry) -> CoilPlayer<'_>
    ensures { IsCoilPlayerOf player.now result }
{
    CoilPlayer {
        event: handled_event(&player.event),
        items: keyed_values(&player.value),
    }
}
