//! The players of a game.

ghost use Rattle.std.specs.Prelude.{◌≡◌, ◌≤◌};
ghost use Rattle.player_game.specs.Players.{act_on, most_players};

use crate::slot::Slot;
use crate::special::Special;
use device_objects::values::clamp_value;
use machine_settings::VariableAction;
use plan_tables::{Condition, Plan, VariableId};
use std::alloc::{AllocError, Global};
use std::marker::Model;

/// The players of a game, their variables, and whose turn it is. Only `new` takes memory.
///
/// Players have numbers from 1 on. There are at most as many as the game of the plan allows, and
/// none if the plan has no game. The variables `ball` and `number` are the ball at which a player
/// is, and the player's number.
#[derive(Drop)]
pub struct Players<'p> {
    plan: &'p Plan,
    special: Special,
    /// One for each player that there can be.
    slots: Vec<Slot>,
    /// How many players there are. The first slots are theirs.
    count: usize,
    /// The number of the current player; 0 if there is none.
    current: usize,
}

impl<'p> Model for Players<'p> {
    ghost use Rattle.player_game.specs.Players.{PlayersView};

    ghost Value = { PlayersView };

    ghost use Rattle.player_game.specs.Kept.{IsKept, players_view};

    ghost view = { λ p. players_view p.plan.now p.slots.items p.count p.current };

    ghost invariant = { λ p. IsKept p.plan.now p.special p.slots.items p.count p.current };
}

impl<'p> Players<'p> {
    ghost use Rattle.std.specs.Prelude.{◌≡◌, ◌<◌, ◌≤◌, nat_lt, length, IfOk, IsSome};
    ghost use Rattle.plan_tables.specs.Valid.{IsConditionWithin};
    ghost use Rattle.player_game.specs.Players.{add_player, after_change, ball_now, changed_to, is_met, most_players};
    ghost use Rattle.player_game.specs.Players.{next_ball, no_players, score_of, make_current, value_now, value_of};
    ghost use Rattle.player_game.specs.Players.{with_current, with_value};
    ghost use Rattle.player_game.specs.Choices.{AreFew};

    /// No players.
    ///
    /// # Errors
    ///
    /// `AllocError`: memory ran out.
    pub fn new(alloc: Global, plan: &'p Plan) -> Result<Players<'p>, AllocError>
        ensures none { IfOk result (λ s. s ≡ record { plan = plan.now; state = no_players }) }
        ensures few { IfOk result (λ s. AreFew s.plan s.state) }
    {
        let most = most_players(plan);
        let mut slots = Vec::with_capacity(alloc, most)?;
        for _ in 0..most {
            slots.push(Slot::new(alloc, plan.variable_count())?)?;
        }
        Ok(Players {
            plan,
            special: Special::of(plan),
            slots,
            count: 0,
            current: 0,
        })
    }

    /// Takes all players out.
    pub fn clear(&mut self)
        ensures none { self.new ≡ record self.old { state = no_players } }
        ensures few { AreFew self.new.plan self.new.state }
    {
        self.count = 0;
        self.current = 0;
    }

    /// Adds a player, whose variables are 0, if there can be one player more. Reports whether
    /// there can be. If not, nothing has changed.
    pub fn add(&mut self) -> bool
        ensures state { self.new ≡ record self.old { state = add_player self.old.plan self.old.state } }
        ensures adds { result ≡ nat_lt (length self.old.state.players) (most_players self.old.plan.game) }
        ensures few { AreFew self.new.plan self.new.state }
    {
        if self.slots.len() <= self.count {
            return false;
        }
        let slot = &mut self.slots[self.count];
        slot.clear();
        self.count += 1;
        true
    }

    /// How many players there are.
    pub fn count(&self) -> usize
        ensures count { result ≡ length self.now.state.players }
        ensures few { AreFew self.now.plan self.now.state }
    {
        self.count
    }

    /// The player of this number becomes the current one. If there is no such player, none is.
    pub fn turn(&mut self, player: usize)
        ensures state { self.new ≡ record self.old { state = make_current player self.old.state } }
        ensures few { AreFew self.new.plan self.new.state }
    {
        self.current = if player <= self.count { player } else { 0 };
    }

    /// The number of the current player; 0 if there is none.
    pub fn current(&self) -> usize
        ensures current { result ≡ self.now.state.current }
        ensures few { AreFew self.now.plan self.now.state }
    {
        self.current
    }

    /// The value of a variable of the plan, of the current player; 0 if there is none.
    pub fn get(&self, variable: VariableId) -> i64
        requires { variable.0 < length self.now.plan.variables }
        ensures value { result ≡ value_now self.now.plan self.now.state variable }
        ensures few { AreFew self.now.plan self.now.state }
    {
        if self.current == 0 {
            return 0;
        }
        self.value(self.current, variable)
    }

    /// Does this with a variable of the plan, of the current player. Reports the new value if it
    /// is another one. If not, nothing has changed: so it is with the variables `ball` and `number`,
    /// and when there is no current player.
    ///
    /// No value is further from 0 than 999,999,999,999,999: what would be ends there.
    pub fn change(
        &mut self,
        variable: VariableId,
        action: VariableAction,
        number: i64,
    ) -> Option<i64>
        requires { variable.0 < length self.old.plan.variables }
        ensures value { result ≡ changed_to self.old.plan variable action number self.old.state }
        ensures state { self.new ≡ record self.old
            { state = after_change self.old.plan variable result self.old.state } }
        ensures few { AreFew self.new.plan self.new.state }
    {
        let value = self.changed_value(variable, action, number)?;
        self.put(variable, value);
        Some(value)
    }

    /// A variable of the current player, whom there is, gets this value.
    fn put(&mut self, variable: VariableId, value: i64)
        requires some { 1 ≤ self.old.state.current }
        requires variable { variable.0 < length self.old.plan.variables }
        ensures state { self.new ≡ record self.old
            { state = with_current self.old.plan (with_value variable value) self.old.state } }
        ensures few { AreFew self.new.plan self.new.state }
    {
        let slot = &mut self.slots[self.current - 1];
        slot.set(variable, value);
    }

    /// What a variable of the current player becomes, if it becomes another value.
    fn changed_value(
        &self,
        variable: VariableId,
        action: VariableAction,
        number: i64,
    ) -> Option<i64>
        requires { variable.0 < length self.now.plan.variables }
        ensures value { result ≡ changed_to self.now.plan variable action number self.now.state }
        ensures current { IsSome result → 1 ≤ self.now.state.current }
        ensures few { AreFew self.now.plan self.now.state }
    {
        if self.current == 0 || self.special.is_of_game(variable) {
            return None;
        }
        let old = self.value(self.current, variable);
        let new = act_on(action, number, old);
        if new == old { None } else { Some(new) }
    }

    /// Whether the current player meets the condition. Without a current player no condition is met.
    /// If there is no condition, there is none to meet.
    pub fn meets(&self, condition: Option<Condition>) -> bool
        requires { IsConditionWithin self.now.plan condition }
        ensures meets { result ≡ is_met self.now.plan self.now.state condition }
        ensures few { AreFew self.now.plan self.now.state }
    {
        let current = self.current;
        let Some(condition) = condition else {
            return true;
        };
        let value = self.get(condition.variable);
        current != 0 && condition.comparison.holds(value, condition.number)
    }

    /// The variable `score` of a player; 0 if the plan has no such variable.
    pub fn score(&self, player: usize) -> i64
        requires some { 1 ≤ player }
        requires player { player ≤ length self.now.state.players }
        ensures score { result ≡ score_of self.now.plan self.now.state player }
        ensures few { AreFew self.now.plan self.now.state }
    {
        match self.special.score {
            None => 0,
            Some(score) => self.value(player, score),
        }
    }

    /// The value of a variable of the plan, of a player.
    fn value(&self, player: usize, variable: VariableId) -> i64
        requires some { 1 ≤ player }
        requires player { player ≤ length self.now.state.players }
        requires variable { variable.0 < length self.now.plan.variables }
        ensures { result ≡ value_of self.now.plan self.now.state player variable }
    {
        if self.special.is_ball(variable) {
            return self.slots[player - 1].ball();
        }
        if self.special.is_number(variable) {
            return player as i64;
        }
        self.slots[player - 1].value(variable)
    }

    /// Which ball the current player is at; 0 before the first, and if there is no current player.
    pub(crate) fn ball(&self) -> i64
        ensures { result ≡ ball_now self.now.plan self.now.state }
    {
        if self.current == 0 {
            return 0;
        }
        self.slots[self.current - 1].ball()
    }

    /// The current player goes on to the next ball.
    pub(crate) fn next_ball(&mut self)
        ensures state { self.new ≡ record self.old { state = next_ball self.old.plan self.old.state } }
        ensures few { AreFew self.new.plan self.new.state }
    {
        if self.current == 0 {
            return;
        }
        let slot = &mut self.slots[self.current - 1];
        slot.next_ball();
    }
}

/// How many players there can be.
fn most_players(plan: &Plan) -> usize
    ensures most { result ≡ most_players plan.now.game }
    ensures few { result ≤ 4 }
{
    match plan.game() {
        None => 0,
        Some(rules) => rules.max_players as usize,
    }
}

/// What an action makes of a value.
fn act_on(action: VariableAction, number: i64, value: i64) -> i64
    ensures { result ≡ act_on action number value }
{
    match action {
        VariableAction::Add => clamp_value(i128::from(value) + i128::from(number)),
        VariableAction::Set => clamp_value(i128::from(number)),
    }
}
