//! Boxes of devices are devices.

use crate::device::{Device, Outcome};
use crate::state::{DeviceState, World};
use plan_tables::{Act, DeviceRow};

impl Device for Box<dyn Device> {
    ghost row_of = { λ b. (Device-box b).row_of b.value };

    ghost state_of = { λ b. (Device-box b).state_of b.value };

    fn row(&self) -> DeviceRow {
        (**self).row()
    }

    fn state(&self) -> DeviceState {
        (**self).state()
    }

    fn due(&self) -> Option<u64> {
        (**self).due()
    }

    fn start(&mut self, now: u64, world: World) -> Outcome {
        (**self).start(now, world)
    }

    fn stop(&mut self, now: u64, world: World) -> Outcome {
        (**self).stop(now, world)
    }

    fn fire(&mut self, now: u64, world: World) -> Outcome {
        (**self).fire(now, world)
    }

    fn act(&mut self, act: Act, now: u64, world: World) -> Outcome {
        (**self).act(act, now, world)
    }
}
