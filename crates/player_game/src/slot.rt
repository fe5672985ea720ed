//! The place of one player.

use device_objects::values::clamp_value;
use plan_tables::VariableId;
use std::alloc::{AllocError, Global};
use std::marker::Model;

/// The place of one player.
#[derive(Drop)]
pub(crate) struct Slot {
    /// Which ball the player is at; 0 before the first.
    ball: i64,
    /// The value of each variable, by number.
    values: Vec<i64>,
}

impl Model for Slot {
    ghost use Rattle.player_game.specs.Players.{PlayerState};

    ghost Value = { PlayerState };

    ghost view = { λ s. record { ball = s.ball; values = s.values.items } };
}

impl Slot {
    ghost use Rattle.std.specs.Prelude.{◌≡◌, ◌<◌, length, slice_index, IfOk};
    ghost use Rattle.player_game.specs.Players.{fresh_player, value_at, with_next_ball, with_value};

    /// The place of a player with so many variables, before the first ball.
    pub(crate) fn new(alloc: Global, variables: usize) -> Result<Slot, AllocError>
        ensures { IfOk result (λ s. s ≡ fresh_player variables) }
    {
        let values = vec![in alloc; 0; variables]?;
        Ok(Slot { ball: 0, values })
    }

    /// Empties the place for another player.
    pub(crate) fn clear(&mut self)
        ensures { self.new ≡ fresh_player (length self.old.values) }
    {
        self.ball = 0;
        self.values.fill(0);
    }

    /// Which ball the player is at; 0 before the first.
    pub(crate) fn ball(&self) -> i64
        ensures { result ≡ self.now.ball }
    {
        self.ball
    }

    /// The value of a variable.
    pub(crate) fn value(&self, variable: VariableId) -> i64
        requires { variable.0 < length self.now.values }
        ensures { result ≡ value_at variable self.now }
    {
        self.values[variable.0 as usize]
    }

    /// The variable gets this value.
    pub(crate) fn set(&mut self, variable: VariableId, value: i64)
        requires { variable.0 < length self.old.values }
        ensures { self.new ≡ with_value variable value self.old }
    {
        self.values[variable.0 as usize] = value;
    }

    /// The player goes on to the next ball.
    pub(crate) fn next_ball(&mut self)
        ensures { self.new ≡ with_next_ball self.old }
    {
        self.ball = clamp_value(i128::from(self.ball) + 1);
    }
}
