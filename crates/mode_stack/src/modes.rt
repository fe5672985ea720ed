//! The phase of every mode.

use crate::phase::{ModeState, Phase, StopAnswer};
use plan_tables::{ModeId, Plan};
use std::alloc::{AllocError, Global};
use std::marker::Model;

/// The phase of every mode of a plan. Only `new` takes memory.
#[derive(Drop)]
pub struct Modes<'p> {
    plan: &'p Plan,
    states: Vec<ModeState>,
}

impl<'p> Model for Modes<'p> {
    ghost use Rattle.mode_stack.specs.Modes.{ModesView, IsComplete};

    ghost Value = { ModesView };

    ghost view = { λ m. record { plan = m.plan.now; modes = m.states.items } };

    ghost invariant = { λ m. IsComplete (record { plan = m.plan.now; modes = m.states.items }) };
}

impl<'p> Modes<'p> {
    ghost use Rattle.std.specs.Prelude.{◌≡◌, ◌<◌, length, slice_set, IfOk};
    ghost use Rattle.mode_stack.specs.ModeStep.{after_start, starts, after_stop, stop_answer, entered, ended};
    ghost use Rattle.mode_stack.specs.Modes.{IsComplete, needs_game, mode_state, idle_modes};

    /// All modes of the plan, idle, with no stop kept.
    ///
    /// # Errors
    ///
    /// `AllocError`: memory ran out.
    pub fn new(alloc: Global, plan: &'p Plan) -> Result<Modes<'p>, AllocError>
        ensures idle { IfOk result (λ s. s ≡ idle_modes plan.now) }
        ensures complete { IfOk result (λ s. IsComplete s) }
    {
        let idle = ModeState::in_phase(Phase::Idle);
        let states = vec![in alloc; idle; plan.mode_count()]?;
        Ok(Modes { plan, states })
    }

    /// The phase of a mode of the plan.
    pub fn phase(&self, mode: ModeId) -> Phase
        requires { mode.0 < length self.now.plan.modes }
        ensures phase { result ≡ (mode_state self.now.modes mode).phase }
        ensures complete { IsComplete self.now }
    {
        self.states[mode.0 as usize].phase
    }

    /// Starts a mode of the plan, if it is idle, and a game goes on or the mode needs none. Reports
    /// whether it starts. If not, nothing has changed.
    pub fn start(&mut self, mode: ModeId, game: bool) -> bool
        requires { mode.0 < length self.old.plan.modes }
        ensures state { self.new ≡ record self.old {
          modes = slice_set self.old.modes mode.0
              (after_start (needs_game self.old.plan mode) game (mode_state self.old.modes mode));
        } }
        ensures starts { result ≡ starts (needs_game self.old.plan mode) game (mode_state self.old.modes mode).phase }
        ensures complete { IsComplete self.new }
    {
        let needs = self.plan.mode(mode).game;
        let number = mode.0 as usize;
        let old = self.states[number];
        self.states[number] = old.after_start(needs, game);
        old.starts(needs, game)
    }

    /// Tells a mode of the plan to stop. An active mode is stopping then, and the caller posts its
    /// event `stopping`. For a starting mode the stop is kept. In the other phases nothing changes.
    pub fn stop(&mut self, mode: ModeId) -> StopAnswer
        requires { mode.0 < length self.old.plan.modes }
        ensures state { self.new ≡ record self.old
            { modes = slice_set self.old.modes mode.0 (after_stop (mode_state self.old.modes mode)) } }
        ensures answer { result ≡ stop_answer (mode_state self.old.modes mode).phase }
        ensures complete { IsComplete self.new }
    {
        let number = mode.0 as usize;
        let old = self.states[number];
        self.states[number] = old.after_stop();
        old.stop_answer()
    }

    /// Makes a mode of the plan active. Reports whether a stop was kept for it. None is kept after.
    pub fn entered(&mut self, mode: ModeId) -> bool
        requires { mode.0 < length self.old.plan.modes }
        ensures state { self.new ≡ record self.old
            { modes = slice_set self.old.modes mode.0 (entered (mode_state self.old.modes mode)) } }
        ensures keeps { result ≡ (mode_state self.old.modes mode).keeps_stop }
        ensures complete { IsComplete self.new }
    {
        let number = mode.0 as usize;
        let old = self.states[number];
        self.states[number] = ModeState::in_phase(Phase::Active);
        old.keeps_stop
    }

    /// Makes a mode of the plan idle, with no stop kept.
    pub fn ended(&mut self, mode: ModeId)
        requires { mode.0 < length self.old.plan.modes }
        ensures state { self.new ≡ record self.old
            { modes = slice_set self.old.modes mode.0 (ended (mode_state self.old.modes mode)) } }
        ensures complete { IsComplete self.new }
    {
        self.states[mode.0 as usize] = ModeState::in_phase(Phase::Idle);
    }
}
