//! One type for the devices of all kinds.

ghost use Rattle.std.specs.Prelude.{◌≡◌, ◌↔◌, IsSome, IfSome};
ghost use Rattle.device_objects.specs.DeviceStep.{first_state};
ghost use Rattle.row_devices.specs.Kinds.{HasDevice};

use ball_devices::{BallDevice, BallSave, Multiball};
use coil_rules::{Autofire, Flipper};
use device_objects::{Device, DeviceState, Outcome, World};
use logic_blocks::{Counter, MaskAccrual, Sequence, Timer};
use plan_tables::{Act, DeviceRow, Settings};
use shot_groups::MaskBank;

/// A device of any kind.
#[derive(Drop)]
pub enum RowDevice {
    Counter(Counter),
    Accrual(MaskAccrual),
    Sequence(Sequence),
    Timer(Timer),
    Bank(MaskBank),
    Flipper(Flipper),
    Autofire(Autofire),
    BallDevice(BallDevice),
    BallSave(BallSave),
    Multiball(Multiball),
}

/// The device of a row, in its first state. None exactly where no device can have the settings of
/// the row: it is a bank of more shots, or of more states, than a plan can have.
pub fn device_of(row: &DeviceRow) -> Option<RowDevice>
    ensures kind { IsSome result ↔ HasDevice row.now.settings }
    ensures row { IfSome result (λ d. ⟦<RowDevice as Device>⟧.row_of d ≡ row.now) }
    ensures first { IfSome result (λ d. ⟦<RowDevice as Device>⟧.state_of d ≡ first_state row.now.settings) }
{
    match row.settings {
        Settings::Counter(_) => Some(RowDevice::Counter(Counter::new(row)?)),
        Settings::Accrual(_) => Some(RowDevice::Accrual(MaskAccrual::new(row)?)),
        Settings::Sequence(_) => Some(RowDevice::Sequence(Sequence::new(row)?)),
        Settings::Timer(_) => Some(RowDevice::Timer(Timer::new(row)?)),
        Settings::Bank(_) => Some(RowDevice::Bank(MaskBank::new(row)?)),
        Settings::Flipper => Some(RowDevice::Flipper(Flipper::new(row)?)),
        Settings::Autofire => Some(RowDevice::Autofire(Autofire::new(row)?)),
        Settings::BallDevice(_) => Some(RowDevice::BallDevice(BallDevice::new(row)?)),
        Settings::BallSave(_) => Some(RowDevice::BallSave(BallSave::new(row)?)),
        Settings::Multiball(_) => Some(RowDevice::Multiball(Multiball::new(row)?)),
    }
}

// What is asked of a device of any kind.
macro_rules! each_kind {
    ($self:expr, $device:ident => $answer:expr) => {
        match $self {
            RowDevice::Counter($device) => $answer,
            RowDevice::Accrual($device) => $answer,
            RowDevice::Sequence($device) => $answer,
            RowDevice::Timer($device) => $answer,
            RowDevice::Bank($device) => $answer,
            RowDevice::Flipper($device) => $answer,
            RowDevice::Autofire($device) => $answer,
            RowDevice::BallDevice($device) => $answer,
            RowDevice::BallSave($device) => $answer,
            RowDevice::Multiball($device) => $answer,
        }
    };
}

impl Device for RowDevice {
    ghost use Rattle.row_devices.specs.declared.row_device.RowDevice.TheVariants as kinds;

    ghost row_of = { elim [
      | kinds.Counter d ↦ ⟦<Counter as Device>⟧.row_of d
      | kinds.Accrual d ↦ ⟦<MaskAccrual as Device>⟧.row_of d
      | kinds.Sequence d ↦ ⟦<Sequence as Device>⟧.row_of d
      | kinds.Timer d ↦ ⟦<Timer as Device>⟧.row_of d
      | kinds.Bank d ↦ ⟦<MaskBank as Device>⟧.row_of d
      | kinds.Flipper d ↦ ⟦<Flipper as Device>⟧.row_of d
      | kinds.Autofire d ↦ ⟦<Autofire as Device>⟧.row_of d
      | kinds.BallDevice d ↦ ⟦<BallDevice as Device>⟧.row_of d
      | kinds.BallSave d ↦ ⟦<BallSave as Device>⟧.row_of d
      | kinds.Multiball d ↦ ⟦<Multiball as Device>⟧.row_of d
    ] };

    ghost state_of = { elim [
      | kinds.Counter d ↦ ⟦<Counter as Device>⟧.state_of d
      | kinds.Accrual d ↦ ⟦<MaskAccrual as Device>⟧.state_of d
      | kinds.Sequence d ↦ ⟦<Sequence as Device>⟧.state_of d
      | kinds.Timer d ↦ ⟦<Timer as Device>⟧.state_of d
      | kinds.Bank d ↦ ⟦<MaskBank as Device>⟧.state_of d
      | kinds.Flipper d ↦ ⟦<Flipper as Device>⟧.state_of d
      | kinds.Autofire d ↦ ⟦<Autofire as Device>⟧.state_of d
      | kinds.BallDevice d ↦ ⟦<BallDevice as Device>⟧.state_of d
      | kinds.BallSave d ↦ ⟦<BallSave as Device>⟧.state_of d
      | kinds.Multiball d ↦ ⟦<Multiball as Device>⟧.state_of d
    ] };

    fn row(&self) -> DeviceRow {
        each_kind!(self, device => device.row())
    }

    fn state(&self) -> DeviceState {
        each_kind!(self, device => device.state())
    }

    fn due(&self) -> Option<u64> {
        each_kind!(self, device => device.due())
    }

    fn start(&mut self, now: u64, world: World) -> Outcome {
        each_kind!(self, device => device.start(now, world))
    }

    fn stop(&mut self, now: u64, world: World) -> Outcome {
        each_kind!(self, device => device.stop(now, world))
    }

    fn fire(&mut self, now: u64, world: World) -> Outcome {
        each_kind!(self, device => device.fire(now, world))
    }

    fn act(&mut self, act: Act, now: u64, world: World) -> Outcome {
        each_kind!(self, device => device.act(act, now, world))
    }
}
