//! What a rig is given, and why it is refused.

ghost use Rattle.std.specs.Prelude.{◌≡◌};
ghost use Rattle.pin_rig.specs.Refused.{step_fault_number, step_fault_name, admission};

// There is no rig for the reasons for which its machine has no core.
pub use machine_core::CoreFault as RigFault;
use plan_tables::SwitchId;
use thiserror::Error;

/// The first moment that is too late, in milliseconds.
const TOO_LATE: u64 = 1 << 40;

/// What a rig is given. Moments are milliseconds.
#[derive(Clone, Copy)]
pub enum Input {
    /// From this moment on the switch has this raw level.
    Change {
        at: u64,
        switch: SwitchId,
        level: bool,
    },
    /// The alarm that is due next comes, at its moment.
    Alarm,
    /// Nothing happens up to the moment.
    Wait {
        at: u64,
    },
}

/// Why a step failed: the first of these reasons. After `BoardFault` the machine has gone on. After
/// any other, the input is refused and nothing has changed.
#[derive(Clone, Copy, Debug, Error)]
#[error("{}", self.name())]
pub enum StepFault {
    /// The board has not taken an earlier command.
    Halted,
    /// The plan has no switch of this number.
    NoSuchSwitch,
    /// No alarm is due.
    NoAlarm,
    /// The moment is before that of the latest stimulus.
    Backwards,
    /// The moment is 2^40 ms or later.
    TooLate,
    /// An alarm is due at or before the moment.
    AlarmPending,
    /// The board has not taken a command of the cascade. The rig is halted from then on.
    BoardFault,
}

impl StepFault {
    /// The number with which it is printed.
    pub fn number(&self) -> u32
        ensures { result ≡ step_fault_number self.now }
    {
        match self {
            StepFault::Backwards => 1,
            StepFault::TooLate => 2,
            StepFault::NoSuchSwitch => 3,
            StepFault::BoardFault => 4,
            StepFault::Halted => 5,
            StepFault::AlarmPending => 6,
            StepFault::NoAlarm => 7,
        }
    }

    /// The name with which it is printed.
    pub fn name(&self) -> &'static str
        ensures { result.now ≡ step_fault_name self.now }
    {
        match self {
            StepFault::Backwards => "Backwards",
            StepFault::TooLate => "TooLate",
            StepFault::NoSuchSwitch => "NoSuchSwitch",
            StepFault::BoardFault => "BoardFault",
            StepFault::Halted => "Halted",
            StepFault::AlarmPending => "AlarmPending",
            StepFault::NoAlarm => "NoAlarm",
        }
    }
}

/// Whether a stimulus may come at the moment `at` after one at `latest`, in milliseconds.
///
/// # Errors
///
/// - `Backwards`: `at` is before `latest`.
/// - `TooLate`: `at` is 2^40 ms or later.
pub fn check_moment(latest: u64, at: u64) -> Result<(), StepFault>
    ensures { result ≡ admission latest at }
{
    if at < latest {
        return Err(StepFault::Backwards);
    }
    if at >= TOO_LATE {
        return Err(StepFault::TooLate);
    }
    Ok(())
}
