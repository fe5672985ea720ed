//! The variables that have a meaning of their own.

ghost use Rattle.std.specs.Prelude.{◌≡◌, ◌<◌, ◌||◌, length, IfSome};
ghost use Rattle.player_game.specs.Players.{is_that};
ghost use Rattle.player_game.specs.Special.{special_of};

use plan_tables::{Plan, VariableId};

/// The variables that have a meaning of their own; none if the plan has no variable of the name.
#[derive(Clone, Copy)]
pub(crate) struct Special {
    /// The ball at which the player is.
    pub(crate) ball: Option<VariableId>,
    /// The number of the player.
    pub(crate) number: Option<VariableId>,
    /// The score of the player.
    pub(crate) score: Option<VariableId>,
}

impl Special {
    /// Those of a plan.
    pub(crate) fn of(plan: &Plan) -> Special
        ensures special { result ≡ special_of plan.now }
        ensures score { IfSome result.score (λ v. v.0 < length plan.now.variables) }
    {
        Special {
            ball: plan.find_variable(b"ball"),
            number: plan.find_variable(b"number"),
            score: plan.find_variable(b"score"),
        }
    }

    /// Whether it is the variable `ball`.
    pub(crate) fn is_ball(self, variable: VariableId) -> bool
        ensures { result ≡ is_that self.ball variable }
    {
        is_that(self.ball, variable)
    }

    /// Whether it is the variable `number`.
    pub(crate) fn is_number(self, variable: VariableId) -> bool
        ensures { result ≡ is_that self.number variable }
    {
        is_that(self.number, variable)
    }

    /// Whether it is one of the two that the game alone sets.
    pub(crate) fn is_of_game(self, variable: VariableId) -> bool
        ensures { result ≡ (is_that self.ball variable || is_that self.number variable) }
    {
        self.is_ball(variable) || self.is_number(variable)
    }
}

/// Whether it is this variable, if there is one.
fn is_that(this: Option<VariableId>, variable: VariableId) -> bool
    ensures { result ≡ is_that this variable }
{
    match this {
        None => false,
        Some(this) => this.0 == variable.0,
    }
}
