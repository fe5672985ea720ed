//! Why an exchange of devices is refused, and the law that exchanges do not change the steps.

ghost use Rattle.std.specs.Prelude.{◌≡◌};
ghost use Rattle.pin_rig.specs.Exchange.{refusal_number, refusal_name, ExchangesLeaveTheSteps};

use thiserror::Error;

/// Why a device may not take the place of the device of a row: the first of these reasons. Nothing
/// has changed then.
#[derive(Clone, Copy, Debug, Error)]
#[error("{}", self.name())]
pub enum Refusal {
    /// The board has not taken an earlier command.
    Halted,
    /// The plan has no row of this number.
    NoSuchRow,
    /// The device is one of another row.
    WrongRow,
    /// The device is in another state than the one of the row.
    WrongState,
}

impl Refusal {
    /// Its number, from 1 to 4.
    pub fn number(&self) -> u32
        ensures { result ≡ refusal_number self.now }
    {
        match self {
            Refusal::Halted => 1,
            Refusal::NoSuchRow => 2,
            Refusal::WrongRow => 3,
            Refusal::WrongState => 4,
        }
    }

    /// Its name.
    pub fn name(&self) -> &'static str
        ensures { result.now ≡ refusal_name self.now }
    {
        match self {
            Refusal::Halted => "Halted",
            Refusal::NoSuchRow => "NoSuchRow",
            Refusal::WrongRow => "WrongRow",
            Refusal::WrongState => "WrongState",
        }
    }
}

/// The law of exchanges, for every list of steps and exchanges of a rig. `Rig::exchange` leaves the
/// rig as it is, whether it refuses or not. So the steps of the list are steps by themselves: they
/// have the same lines, and lead to the same rig. What `steps_are_run` says of a list of steps is so
/// of one with exchanges between its steps.
///
/// It does nothing: its contract is the law, over what `Rig::step` and `Rig::exchange` promise.
pub fn exchanges_leave_the_steps()
    ensures { ExchangesLeaveTheSteps }
{}
