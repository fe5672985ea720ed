//! What a device is.

use crate::state::{DeviceState, World};
use arrayvec::ArrayVec;
use plan_tables::{Act, DeviceRow};

/// What is done with a device.
#[derive(Clone, Copy)]
pub enum Call {
    /// Its mode starts.
    ModeStart,
    /// Its mode stops, or it is taken out of the machine.
    ModeStop,
    /// The moment has come at which it is due.
    Fire,
    /// It is told to do this.
    Act(Act),
}

/// The numbers of the effect lists that a device wants to be run, in order. Numbers count from 0
/// among the lists of the device's row.
pub type Outcome = ArrayVec<u16, 4>;

/// A device of a machine. It has a row, which never changes, and a state. What a call does to the
/// state, and which lists it answers, depends on the row, the state, the moment and the world. No
/// call takes memory.
///
/// Moments are in milliseconds from the start of the machine, and below 2^40.
pub trait Device: Drop {
    ghost use Rattle.std.specs.Prelude.{◌≡◌, ℕ, ◌<◌, ◌^◌, IsSome};
    ghost use Rattle.plan_tables.specs.declared.devices.DeviceRow.{DeviceRow};
    ghost use Rattle.device_objects.specs.declared.state.DeviceState.{DeviceState};
    ghost use Rattle.device_objects.specs.declared.device.Call.TheVariants as calls;
    ghost use Rattle.device_objects.specs.DeviceStep.{device_step, due_of};

    /// The row.
    ghost row_of: { Self → DeviceRow };
    /// The state.
    ghost state_of: { Self → DeviceState };

    /// The row.
    fn row(&self) -> DeviceRow
        ensures { result ≡ row_of self.now };

    /// The state.
    fn state(&self) -> DeviceState
        ensures { result ≡ state_of self.now };

    /// The moment at which the device wants to be called by `fire`, if there is one.
    fn due(&self) -> Option<u64>
        ensures { result ≡ due_of (state_of self.now) };

    /// The mode of the device starts.
    fn start(&mut self, now: u64, world: World) -> Outcome
        requires { now < 2 ^ 40 }
        ensures row { row_of self.new ≡ row_of self.old }
        ensures state { state_of self.new ≡ (device_step (row_of self.old).settings calls.ModeStart now world
            (state_of self.old)).0 }
        ensures outcome { result.items ≡ (device_step (row_of self.old).settings calls.ModeStart now world
            (state_of self.old)).1 };

    /// The mode of the device stops, or the device is taken out of the machine. Nothing of it is due
    /// then.
    fn stop(&mut self, now: u64, world: World) -> Outcome
        requires { now < 2 ^ 40 }
        ensures row { row_of self.new ≡ row_of self.old }
        ensures state { state_of self.new ≡ (device_step (row_of self.old).settings calls.ModeStop now world
            (state_of self.old)).0 }
        ensures outcome { result.items ≡ (device_step (row_of self.old).settings calls.ModeStop now world
            (state_of self.old)).1 };

    /// The moment has come at which the device is due.
    fn fire(&mut self, now: u64, world: World) -> Outcome
        requires moment { now < 2 ^ 40 }
        requires due { IsSome (due_of (state_of self.old)) }
        ensures row { row_of self.new ≡ row_of self.old }
        ensures state { state_of self.new ≡ (device_step (row_of self.old).settings calls.Fire now world
            (state_of self.old)).0 }
        ensures outcome { result.items ≡ (device_step (row_of self.old).settings calls.Fire now world
            (state_of self.old)).1 };

    /// The device is told to do something.
    fn act(&mut self, act: Act, now: u64, world: World) -> Outcome
        requires { now < 2 ^ 40 }
        ensures row { row_of self.new ≡ row_of self.old }
        ensures state { state_of self.new ≡ (device_step (row_of self.old).settings (calls.Act act) now world
            (state_of self.old)).0 }
        ensures outcome { result.items ≡ (device_step (row_of self.old).settings (calls.Act act) now world
            (state_of self.old)).1 };
}
