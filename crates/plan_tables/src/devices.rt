//! The rows of a plan's devices, and what can be done with a device.

use crate::entries::Owner;
use machine_settings::{
    CounterSettings, EjectSettings, MultiballSettings, SaveSettings, StepSettings, TimerSettings,
};

/// A device, by the number of its row in plan order: below 1,024.
#[derive(Clone, Copy, Debug, PartialEq, Eq)]
pub struct RowId(pub u16);

/// A bank of shots: a group, or a lone shot. All its shots have the same profile.
#[derive(Clone, Copy, PartialEq, Eq)]
pub struct BankSettings {
    /// How many shots it has: at most 16.
    pub shots: u8,
    /// Which of its shots are enabled at first, by their numbers: those that have no `enable_events`.
    pub enabled: [bool; 16],
    /// The number of its profile's last state, from 0: at most 15.
    pub last_state: u8,
    /// Whether a hit moves a shot to its next state.
    pub advance_on_hit: bool,
    /// Whether the first state comes after the last one.
    pub loops: bool,
    /// Whether it is a group, which has effect lists of its own.
    pub group: bool,
}

/// Where a ball device ejects its balls to.
#[derive(Clone, Copy, Debug, PartialEq, Eq)]
pub enum BallTarget {
    /// Onto the playfield.
    Playfield,
    /// Into the ball device of this row.
    Device(RowId),
}

impl BallTarget {
    ghost use Rattle.std.specs.Prelude.{◌≡◌};
    ghost use Rattle.plan_tables.specs.PlanView.{is_target};

    /// Whether the two are the same.
    pub fn is(self, other: BallTarget) -> bool
        ensures { result ≡ is_target self other }
    {
        match (self, other) {
            (BallTarget::Playfield, BallTarget::Playfield) => true,
            (BallTarget::Device(row), BallTarget::Device(another)) => row.0 == another.0,
            _ => false,
        }
    }
}

/// A ball device, such as a trough or a plunger: it has room for a ball at each of its ball switches.
#[derive(Clone, Copy, PartialEq, Eq)]
pub struct BallSettings {
    /// How many ball switches it has: at most 16.
    pub switches: u8,
    /// Where it ejects its balls to.
    pub target: BallTarget,
    /// Whether it has a coil that ejects a ball.
    pub has_coil: bool,
    /// How it counts its balls, and ejects them.
    pub ejects: EjectSettings,
    /// Whether it ejects balls only on request: it is tagged `trough`.
    pub trough: bool,
    /// Whether its balls count as being at home when a game is to begin: it is tagged `trough` or `home`.
    pub home: bool,
}

/// Of which kind a device is, and its settings.
#[derive(Clone, Copy, PartialEq, Eq)]
pub enum Settings {
    Counter(CounterSettings),
    Accrual(StepSettings),
    Sequence(StepSettings),
    Timer(TimerSettings),
    Bank(BankSettings),
    /// A flipper. Its effect lists say what it does with its coils.
    Flipper,
    /// An autofire coil. Its effect list says which coil it pulses.
    Autofire,
    BallDevice(BallSettings),
    BallSave(SaveSettings),
    Multiball(MultiballSettings),
}

impl Settings {
    ghost use Rattle.std.specs.Prelude.{◌≡◌, ◌≤◌};
    ghost use Rattle.plan_tables.specs.Devices.{list_count};
    ghost use Rattle.plan_tables.specs.PlanView.{target_in, feeds, is_trough, is_home, is_save, is_multiball};

    /// Where a ball device ejects its balls to; none for another device.
    pub fn target(self) -> Option<BallTarget>
        ensures { result ≡ target_in self }
    {
        match self {
            Settings::BallDevice(device) => Some(device.target),
            _ => None,
        }
    }

    /// Whether it is a ball device that ejects its balls to this target.
    pub fn feeds(self, target: BallTarget) -> bool
        ensures { result ≡ feeds target self }
    {
        match self.target() {
            Some(own) => target.is(own),
            None => false,
        }
    }

    /// Whether it is a trough.
    pub fn is_trough(self) -> bool
        ensures { result ≡ is_trough self }
    {
        match self {
            Settings::BallDevice(device) => device.trough,
            _ => false,
        }
    }

    /// Whether balls in it are at home.
    pub fn is_home(self) -> bool
        ensures { result ≡ is_home self }
    {
        match self {
            Settings::BallDevice(device) => device.home,
            _ => false,
        }
    }

    /// Whether it is a ball save.
    pub fn is_save(self) -> bool
        ensures { result ≡ is_save self }
    {
        matches!(self, Settings::BallSave(_))
    }

    /// Whether it is a multiball.
    pub fn is_multiball(self) -> bool
        ensures { result ≡ is_multiball self }
    {
        matches!(self, Settings::Multiball(_))
    }

    /// How many effect lists a row with these settings has: of a row of a plan at most 288.
    pub fn list_count(self) -> u32
        ensures { result ≡ list_count self }
    {
        match self {
            Settings::Counter(_) => 3,
            Settings::Accrual(_) => 3,
            Settings::Sequence(_) => 3,
            Settings::Timer(_) => 5,
            Settings::Bank(bank) => bank.list_count(),
            Settings::Flipper => 2,
            Settings::Autofire => 1,
            Settings::BallDevice(_) => 7,
            Settings::BallSave(_) => 3,
            Settings::Multiball(_) => 2,
        }
    }
}

impl BankSettings {
    ghost use Rattle.std.specs.Prelude.{◌≡◌};
    ghost use Rattle.plan_tables.specs.Devices.{bank_list_count};

    /// How many effect lists the bank has: one for each shot in each state, and, of a group, two more
    /// for each state.
    fn list_count(self) -> u32
        ensures { result ≡ bank_list_count self }
    {
        let of_group = if self.group { 2 } else { 0 };
        (u32::from(self.last_state) + 1) * (u32::from(self.shots) + of_group)
    }
}

/// A device of a plan.
#[derive(Clone, Copy, PartialEq, Eq)]
pub struct DeviceRow {
    /// The number of its row.
    pub number: RowId,
    /// The owner of the text that defines it.
    pub owner: Owner,
    /// Its kind and settings.
    pub settings: Settings,
}

/// What a device is asked to do. It ignores acts of other kinds, and the numbers of steps, shots or
/// switches that it does not have; but these too make a slot of an earlier game one of this game.
#[derive(Clone, Copy, Debug)]
pub enum Act {
    /// A counter counts a hit.
    Count,
    /// A step of an accrual or a sequence is done, by its number from 0.
    Step(usize),
    /// The device is enabled.
    Enable,
    /// The device is disabled.
    Disable,
    /// A counter or a timer goes back to its start value, an accrual or a sequence to no step done, and each shot of a
    /// bank to its first state. A block and each shot stay enabled or disabled; a running timer goes on.
    Reset,
    /// A logic block is reset, and is enabled. A timer runs anew from its start value.
    Restart,
    /// A timer runs, or a multiball starts.
    Start,
    /// A timer stops running, and reports `stopped`.
    Stop,
    /// A timer stops running, and reports `paused`.
    Pause,
    /// A timer's value rises by this.
    Add(i64),
    /// A timer's value falls by this.
    Subtract(i64),
    /// A timer's value becomes this.
    Jump(i64),
    /// A shot is hit, by its number from 0 in its bank.
    Hit(usize),
    /// A shot goes on to its next state.
    Advance(usize),
    /// A shot goes back to its first state.
    ResetShot(usize),
    /// A shot counts hits from now on.
    EnableShot(usize),
    /// A shot counts no hits from now on.
    DisableShot(usize),
    /// Each shot's state goes to the next shot, and the last one's to the first.
    RotateRight,
    /// Each shot's state goes to the shot before, and the first one's to the last.
    RotateLeft,
    /// A switch of the device became active, by its number from 0 in the device.
    SwitchOn(usize),
    /// A switch of the device became inactive, by its number from 0 in the device.
    SwitchOff(usize),
    /// The ball that a ball device sent off has arrived.
    Confirm,
    /// A trough is asked to eject this many more balls.
    Request(usize),
    /// A ball save saves a ball that has drained.
    Save,
    /// A multiball ends.
    End,
}

/// What a ball device is told of what happens elsewhere in the machine.
#[derive(Clone, Copy, Debug)]
pub enum Telling {
    /// A ball has arrived at the target. The first ball device whose ball was on its way there is told.
    Arrived(BallTarget),
    /// This many more balls are wanted in play. The first trough is told.
    Wanted(usize),
}

impl Telling {
    ghost use Rattle.std.specs.Prelude.{◌≡◌};
    ghost use Rattle.plan_tables.specs.PlanView.{act_told};

    /// What the device is told to do.
    pub fn act(self) -> Act
        ensures { result ≡ act_told self }
    {
        match self {
            Telling::Arrived(_) => Act::Confirm,
            Telling::Wanted(balls) => Act::Request(balls),
        }
    }
}
