//! The guard of all coils.

use crate::command::{Answer, Command};
use crate::state::CoilState;
use plan_tables::{CoilId, Owner, Plan};
use std::alloc::{AllocError, Global};
use std::marker::Model;

/// The guard of all coils: it says which commands are sent to them, and which are skipped. Moments
/// are milliseconds. The moments of its calls do not go back.
///
/// A pulse of `ms` that is sent at the moment t is on from t up to but not at t + ms. The coil is
/// ready for another pulse from t + 2 ms on. An enabled coil is held, by the owner that enabled it,
/// until a disable is sent to it, whoever asked for that.
#[derive(Drop)]
pub struct Coils {
    coils: Vec<CoilState>,
    /// For whom `release` put a coil off last.
    releasing: Owner,
    /// The number of a coil before which that owner holds none.
    from: usize,
}

impl Model for Coils {
    ghost use Rattle.std.specs.Prelude.{List, length, ◌≤◌};
    ghost use Rattle.coil_guard.specs.{declared.state.CoilState.{CoilState}, GuardState.HoldsNone};

    ghost Value = { List CoilState };

    ghost view = { λ s. s.coils.items };

    ghost invariant = { λ s. (length s.coils.items ≤ 256) × (s.from ≤ length s.coils.items)
        × HoldsNone s.releasing s.coils.items s.from };
}

impl Coils {
    ghost use Rattle.std.specs.Prelude.{◌≡◌, ◌<◌, ◌≤◌, ◌^◌, length, map, IfOk, IfSome};
    ghost use Rattle.coil_guard.specs.CoilStep.{off};
    ghost use Rattle.coil_guard.specs.SentCommands.{coil_of};
    ghost use Rattle.coil_guard.specs.Asked.{limits_of, after_asking, answer_asking};
    ghost use Rattle.coil_guard.specs.Coils.{all_off, after_pulse, answer_pulse, after_enable, answer_enable};
    ghost use Rattle.coil_guard.specs.Coils.{after_disable, answer_disable, next_held, after_release, answer_release};
    ghost use Rattle.coil_guard.specs.Coils.{next_on};
    ghost use Rattle.coil_guard.specs.GuardState.{HoldsNone};

    /// The coils of a plan, with their limits. They are off. Only this call takes memory.
    ///
    /// # Errors
    ///
    /// `AllocError`: memory ran out.
    pub fn new(alloc: Global, plan: &Plan) -> Result<Coils, AllocError>
        ensures off { IfOk result (λ s. s ≡ all_off (limits_of plan.now)) }
        ensures count { IfOk result (λ s. length s ≡ length plan.now.coils) }
    {
        let count = plan.coil_count();
        let mut coils = Vec::with_capacity(alloc, count)?;
        for number in 0..count {
            coils.push_reserved(CoilState::off(plan.coil_limits(CoilId(number as u16))));
        }
        Ok(Coils {
            coils,
            releasing: Owner::Machine,
            from: 0,
        })
    }

    /// Does what `pulse`, `enable` or `disable` does for a command that the owner asks for at the moment
    /// `now`, below 2^40 ms. The coil is one of the plan's.
    pub fn ask(&mut self, command: Command, owner: Owner, now: u64) -> Answer
        requires coil { (coil_of command).0 < length self.old }
        requires now { now < 2 ^ 40 }
        ensures state { self.new ≡ after_asking command owner now self.old }
        ensures answer { result ≡ answer_asking command owner now self.old }
        ensures count { length self.new ≡ length self.old }
    {
        match command {
            Command::Pulse { coil, ms, power } => self.pulse(coil, ms, power, now),
            Command::Enable { coil, power } => self.enable(coil, power, owner, now),
            Command::Disable { coil } => self.disable(coil, now),
        }
    }

    /// Pulses the coil for so many milliseconds with this power, at the moment `now`, below 2^40.
    ///
    /// It is skipped if the coil is held, if it is not ready yet, if `ms` is 0 or above the coil's
    /// greatest pulse, or if the power is above its greatest pulse power.
    pub fn pulse(&mut self, coil: CoilId, ms: u32, power: u16, now: u64) -> Answer
        requires coil { coil.0 < length self.old }
        requires now { now < 2 ^ 40 }
        ensures state { self.new ≡ after_pulse coil ms power now self.old }
        ensures answer { result ≡ answer_pulse coil ms power now self.old }
        ensures count { length self.new ≡ length self.old }
    {
        let number = coil.0 as usize;
        let old = self.coils[number];
        if !old.takes_pulse(ms, power, now) {
            return Answer::Skipped;
        }
        self.coils[number] = old.pulse_coil(ms, now);
        Answer::Sent(Command::Pulse { coil, ms, power })
    }

    /// Holds the coil with this power for the owner, from the moment `now` on, also while a pulse
    /// of it goes on.
    ///
    /// It is skipped if the coil is held already, if it may not be held, or if the power is above
    /// its greatest hold power.
    pub fn enable(&mut self, coil: CoilId, power: u16, owner: Owner, now: u64) -> Answer
        requires { coil.0 < length self.old }
        ensures state { self.new ≡ after_enable coil power owner now self.old }
        ensures answer { result ≡ answer_enable coil power owner now self.old }
        ensures count { length self.new ≡ length self.old }
    {
        let number = coil.0 as usize;
        let old = self.coils[number];
        if !old.takes_enable(power) {
            return Answer::Skipped;
        }
        self.coils[number] = old.enabled(owner);
        self.from = self.from.min(number);
        Answer::Sent(Command::Enable { coil, power })
    }

    /// Puts the coil off at the moment `now`: it ends a pulse and a hold, whoever holds the coil.
    /// The moment from which the coil is ready for another pulse stays.
    ///
    /// It is skipped if the coil is off.
    pub fn disable(&mut self, coil: CoilId, now: u64) -> Answer
        requires { coil.0 < length self.old }
        ensures state { self.new ≡ after_disable coil now self.old }
        ensures answer { result ≡ answer_disable coil now self.old }
        ensures count { length self.new ≡ length self.old }
    {
        let number = coil.0 as usize;
        let old = self.coils[number];
        if !old.is_on_at(now) {
            return Answer::Skipped;
        }
        self.coils[number] = old.disable_coil();
        Answer::Sent(Command::Disable { coil })
    }

    /// Puts off the lowest coil that the owner holds, and answers the command that is sent; none if
    /// the owner holds no coil, and then nothing has changed. Call it again until it answers none,
    /// and all coils of the owner are turned off in the order of their numbers.
    pub fn release(&mut self, owner: Owner, now: u64) -> Option<Command>
        ensures state { self.new ≡ after_release owner now self.old }
        ensures answer { result ≡ answer_release owner now self.old }
        ensures count { length self.new ≡ length self.old }
    {
        let coil = self.next_held(owner)?;
        let number = coil.0 as usize;
        self.coils[number] = self.coils[number].disable_coil();
        self.releasing = owner;
        self.from = number + 1;
        Some(Command::Disable { coil })
    }

    /// The lowest coil that is on at the moment `now`, by a pulse or a hold, if there is one.
    pub fn next_on(&self, now: u64) -> Option<CoilId>
        ensures next { result ≡ next_on now self.now }
        ensures within { IfSome result (λ c. c.0 < length self.now) }
    {
        for (number, coil) in self.coils.iter().enumerate() {
            if coil.is_on_at(now) {
                return Some(CoilId(number as u16));
            }
        }
        None
    }

    /// The lowest coil that the owner holds.
    fn next_held(&self, owner: Owner) -> Option<CoilId>
        ensures next { result ≡ next_held owner self.now }
        ensures within { IfSome result (λ c. c.0 < length self.now) }
    {
        for number in self.first_of(owner)..self.coils.len() {
            if self.coils[number].is_held_by(owner) {
                return Some(CoilId(number as u16));
            }
        }
        None
    }

    /// The number of a coil before which the owner holds none. If a coil was put off last for the
    /// same owner, those before it need not be looked at again, so that putting off all is one walk.
    fn first_of(&self, owner: Owner) -> usize
        ensures none { HoldsNone owner self.now result }
        ensures within { result ≤ length self.now }
    {
        if self.releasing.is(owner) {
            self.from
        } else {
            0
        }
    }
}
