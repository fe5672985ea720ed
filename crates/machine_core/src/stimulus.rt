//! What may come to a machine.

use plan_tables::{RowId, SwitchId};

/// What an alarm comes from.
#[derive(Clone, Copy)]
pub enum Source {
    /// The raw level of the switch, which is accepted then.
    Switch(SwitchId),
    /// The device, which is due then.
    Device(RowId),
}

/// A stimulus, at a moment in milliseconds. The core that it is for says which alarm may come.
#[derive(Clone, Copy)]
pub enum Stimulus {
    /// From this moment on the switch has this raw level.
    SwitchChange(u64, SwitchId, bool),
    /// The alarm that is due next comes, at its moment.
    Alarm(u64, Source),
    /// Nothing happens up to the moment.
    Wait(u64),
}

impl Stimulus {
    ghost use Rattle.std.specs.Prelude.{◌≡◌};
    ghost use Rattle.written_machine.specs.Run.{moment_of};
    ghost use Rattle.machine_core.specs.Stimuli.{stimulus_view};

    /// Its moment.
    pub(crate) fn moment(self) -> u64
        ensures { result ≡ moment_of (stimulus_view self) }
    {
        match self {
            Stimulus::SwitchChange(at, _, _) => at,
            Stimulus::Alarm(at, _) => at,
            Stimulus::Wait(at) => at,
        }
    }
}
