//! What can be wrong with the rows of a configuration.

ghost use Rattle.std.specs.Prelude.{◌≡◌};
ghost use Rattle.row_faults.specs.FaultText.{row_fault_number, row_fault_name};

use crate::text_name::TextName;
use setting_values::values::NameText;
use std::mem::size_of;

/// What can be wrong with the rows of a text.
#[derive(Clone, Copy, Debug, PartialEq, Eq, Hash)]
pub enum RowFaultKind {
    /// A reserved event is posted: one of a game, or of a mode that the machine text lists. Or a
    /// variable is changed that the game alone sets, or whose change posts a reserved event. Or no
    /// entry defines the coil, the switch, the profile or the ball device of this name. Or a group lists a shot that
    /// its own text does not define, that a group lists before, or that has another profile than the
    /// first one of the group.
    Name,
    /// A pulse is longer than the longest one of its coil.
    PulseLimit,
    /// A power is above the greatest one of its coil.
    PowerLimit,
    /// A coil is held that may not be held.
    HoldNotAllowed,
    /// The value at which a timer starts has reached or passed its end.
    TimerAtEnd,
    /// The balls of a ball device never come to the playfield. Or one of its ball switches is of a
    /// ball device before it, or stands twice in it. Or no coil ejects its balls, though it is a
    /// trough, or they do not leave by themselves.
    BallRoute,
}

impl RowFaultKind {
    /// The number with which the fault is printed.
    pub fn number(self) -> u32
        ensures { result ≡ row_fault_number self }
    {
        match self {
            RowFaultKind::Name => 1,
            RowFaultKind::PulseLimit => 2,
            RowFaultKind::PowerLimit => 3,
            RowFaultKind::HoldNotAllowed => 4,
            RowFaultKind::TimerAtEnd => 5,
            RowFaultKind::BallRoute => 6,
        }
    }

    /// The name with which it is printed.
    pub fn name(self) -> &'static str
        ensures { result.now ≡ row_fault_name self }
    {
        match self {
            RowFaultKind::Name => "Name",
            RowFaultKind::PulseLimit => "PulseLimit",
            RowFaultKind::PowerLimit => "PowerLimit",
            RowFaultKind::HoldNotAllowed => "HoldNotAllowed",
            RowFaultKind::TimerAtEnd => "TimerAtEnd",
            RowFaultKind::BallRoute => "BallRoute",
        }
    }
}

/// What is wrong with the rows of a text. There may be very many of these, so each is small: the fields
/// lie in this order.
#[derive(Drop)]
#[derive_where(Debug, PartialEq, Eq, Hash)]
pub struct RowFault {
    pub kind: RowFaultKind,
    /// The line of what is at fault, counted from 1.
    pub line: u32,
    /// The name of the text.
    pub text: TextName,
    /// The name that is at fault: that of the event, the variable, the coil, the switch, the
    /// profile, the shot, the timer or the ball device.
    pub name: NameText,
}

const _: () = prove!(size_of::<RowFault>() <= 48);
