//! What the words in settings say.

/// How long a raw level has to last before it is accepted.
#[derive(Clone, Copy, Debug)]
pub enum Debounce {
    /// As long as the use of the switch needs: as `Normal` for all that can be configured.
    Auto,
    /// It is accepted at once.
    Quick,
    /// 5 ms.
    Normal,
}

/// What an event that controls a timer does with it.
#[derive(Clone, Copy, Debug)]
pub enum ControlAction {
    /// The timer runs.
    Start,
    /// It does not run any more.
    Stop,
    /// It does not run any more, until it is started again.
    Pause,
    /// Its value becomes the first one.
    Reset,
    /// Its value becomes the first one, and it runs.
    Restart,
    /// Its value rises.
    Add,
    /// Its value falls.
    Subtract,
    /// Its value becomes the one of the control.
    Jump,
}

/// What a coil does.
#[derive(Clone, Copy, Debug)]
pub enum CoilAction {
    /// It is on for the length of a pulse.
    Pulse,
    /// It is on until it is disabled.
    Enable,
    /// It is off.
    Disable,
}
