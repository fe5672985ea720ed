//! One switch.

ghost use Rattle.std.specs.Prelude.{◌≡◌, ◌<◌, ◌^◌, option_map};
ghost use Rattle.switch_core.specs.SwitchStep.{is_active, raw_at_rest, idle, accept_level, await_level, change_level};
ghost use Rattle.switch_core.specs.SwitchStep.{is_taken, fire_change};
ghost use Rattle.switch_core.specs.StateView.{state_view};

use machine_settings::Contact;
use plan_tables::entries::SwitchKind;

/// How long a raw level has to stand until it is accepted, in milliseconds.
const DELAY: u64 = 5;

/// A switch's raw level, whether it is active by the level that was accepted last, and the moment
/// at which the raw level is to be accepted.
#[derive(Clone, Copy)]
pub(crate) struct State {
    pub(crate) raw: bool,
    pub(crate) active: bool,
    pub(crate) due: Option<u64>,
}

impl State {
    /// An inactive switch.
    pub(crate) fn idle(kind: SwitchKind) -> State
        ensures { state_view result ≡ idle kind }
    {
        State {
            raw: raw_at_rest(kind.contact),
            active: false,
            due: None,
        }
    }

    /// Whether a change to the raw level is accepted at once.
    pub(crate) fn takes(self, kind: SwitchKind, level: bool) -> bool
        ensures { result ≡ is_taken kind level (state_view self) }
    {
        kind.quick && level != self.raw
    }

    /// The state after the raw level changes at the moment `now`.
    pub(crate) fn change_level(self, kind: SwitchKind, level: bool, now: u64) -> State
        requires { now < 2 ^ 40 }
        ensures { state_view result ≡ change_level kind now level (state_view self) }
    {
        if level == self.raw {
            self
        } else if kind.quick {
            State::accept_level(kind, level)
        } else {
            self.await_level(kind, level, now)
        }
    }

    /// The state after the raw level is accepted.
    pub(crate) fn fire_change(self, kind: SwitchKind) -> State
        ensures { state_view result ≡ fire_change kind (state_view self) }
    {
        State::accept_level(kind, self.raw)
    }

    /// The state after this raw level is accepted.
    fn accept_level(kind: SwitchKind, level: bool) -> State
        ensures { state_view result ≡ accept_level kind level }
    {
        State {
            raw: level,
            active: is_active(kind.contact, level),
            due: None,
        }
    }

    /// The state after a change to another raw level, which waits if it says something new.
    fn await_level(self, kind: SwitchKind, level: bool, now: u64) -> State
        requires { now < 2 ^ 40 }
        ensures { state_view result ≡ await_level kind now level (state_view self) }
    {
        let says_new = is_active(kind.contact, level) != self.active;
        State {
            raw: level,
            active: self.active,
            due: says_new.then_some(now + DELAY),
        }
    }
}

/// Whether a raw level is active.
fn is_active(contact: Contact, level: bool) -> bool
    ensures { result ≡ is_active contact level }
{
    match contact {
        Contact::NormallyOpen => level,
        Contact::NormallyClosed => !level,
    }
}

/// The raw level of a switch that is not active.
fn raw_at_rest(contact: Contact) -> bool
    ensures { result ≡ raw_at_rest contact }
{
    match contact {
        Contact::NormallyOpen => false,
        Contact::NormallyClosed => true,
    }
}
