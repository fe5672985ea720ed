//! One mode.

ghost use Rattle.std.specs.Prelude.{◌≡◌};
ghost use Rattle.mode_stack.specs.ModeStep.{in_phase, starts, after_start, after_stop, stop_answer};

/// How far a mode has come.
#[derive(Clone, Copy)]
pub enum Phase {
    /// It has not been started, or has stopped.
    Idle,
    /// It was started, and is not active yet.
    Starting,
    /// It is active: its bindings handle events.
    Active,
    /// It was told to stop, and its bindings still handle events.
    Stopping,
}

/// The phase of a mode, and whether a stop is kept for it, to come when it is active.
#[derive(Clone, Copy)]
pub struct ModeState {
    pub phase: Phase,
    pub keeps_stop: bool,
}

/// What a call of `stop` did.
#[derive(Clone, Copy)]
pub enum StopAnswer {
    /// The mode is stopping now. The caller posts its event `stopping`.
    Post,
    /// The mode is starting. The stop is kept until it is active.
    Kept,
    /// The mode is idle or stopping already. Nothing has changed.
    Ignored,
}

impl ModeState {
    /// A mode in a phase, with no stop kept.
    pub(crate) fn in_phase(phase: Phase) -> ModeState
        ensures { result ≡ in_phase phase }
    {
        ModeState {
            phase,
            keeps_stop: false,
        }
    }

    /// Whether a mode starts when it is told to. `needs` is whether it starts only in a game, and
    /// `game` whether a game goes on.
    pub(crate) fn starts(self, needs: bool, game: bool) -> bool
        ensures { result ≡ starts needs game self.phase }
    {
        match self.phase {
            Phase::Idle => game || !needs,
            Phase::Starting | Phase::Active | Phase::Stopping => false,
        }
    }

    /// The state after a mode is told to start.
    pub(crate) fn after_start(self, needs: bool, game: bool) -> ModeState
        ensures { result ≡ after_start needs game self }
    {
        if self.starts(needs, game) {
            ModeState::in_phase(Phase::Starting)
        } else {
            self
        }
    }

    /// The state after a mode is told to stop.
    pub(crate) fn after_stop(self) -> ModeState
        ensures { result ≡ after_stop self }
    {
        match self.phase {
            Phase::Active => ModeState::in_phase(Phase::Stopping),
            Phase::Starting => ModeState {
                phase: Phase::Starting,
                keeps_stop: true,
            },
            Phase::Idle | Phase::Stopping => self,
        }
    }

    /// What telling a mode to stop does.
    pub(crate) fn stop_answer(self) -> StopAnswer
        ensures { result ≡ stop_answer self.phase }
    {
        match self.phase {
            Phase::Active => StopAnswer::Post,
            Phase::Starting => StopAnswer::Kept,
            Phase::Idle | Phase::Stopping => StopAnswer::Ignored,
        }
    }
}
