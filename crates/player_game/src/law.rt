//! What holds of the steps of the game.

ghost use Rattle.player_game.specs.Choices.{PlayersStayFew, StepsAreChoices};

/// In a game an event posts one of its choices, whatever the state, and the scores are told exactly
/// at the events that tell them.
///
/// It does nothing: its contract is the law, over all steps.
pub fn steps_are_choices()
    ensures { StepsAreChoices }
{}

/// There are never more players than there can be, and the current one is one of them.
///
/// It does nothing: its contract is the law, over all steps.
pub fn players_stay_few()
    ensures { PlayersStayFew }
{}
