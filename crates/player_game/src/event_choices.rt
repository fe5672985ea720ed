//! What the events of the game can post, whatever the state of the game.

ghost use Rattle.std.specs.Prelude.{◌≡◌, map};
ghost use Rattle.player_game.specs.Choices.{asks_for_ball, choices, is_drain, tells_scores};

use plan_tables::GameEvent;

/// The events that an event of the game posts, by each way that it can go in a game.
pub fn choices(event: GameEvent) -> &'static [&'static [GameEvent]]
    ensures { map (λ posts. posts.now) result.now ≡ choices event }
{
    match event {
        GameEvent::SwStart => &[&[GameEvent::GameWillStart], &[GameEvent::PlayerAdded], &[]],
        GameEvent::GameWillStart => &[&[GameEvent::GameStarting]],
        GameEvent::GameStarting => &[&[GameEvent::PlayerAdded, GameEvent::GameStarted]],
        GameEvent::PlayerAdded => &[&[]],
        GameEvent::GameStarted => &[&[GameEvent::PlayerTurnWillStart]],
        GameEvent::PlayerTurnWillStart => &[&[GameEvent::PlayerTurnStarting]],
        GameEvent::PlayerTurnStarting => &[&[GameEvent::PlayerTurnStarted]],
        GameEvent::PlayerTurnStarted => &[&[GameEvent::BallWillStart]],
        GameEvent::BallWillStart => &[&[GameEvent::BallStarting]],
        GameEvent::BallStarting => &[&[GameEvent::BallStarted]],
        GameEvent::BallStarted => &[&[]],
        GameEvent::BallDrain => &[&[GameEvent::BallWillEnd], &[]],
        GameEvent::BallWillEnd => &[&[GameEvent::BallEnding]],
        GameEvent::BallEnding => &[&[GameEvent::BallEnded], &[]],
        GameEvent::BallEnded => &[&[GameEvent::PlayerTurnWillEnd]],
        GameEvent::PlayerTurnWillEnd => &[&[GameEvent::PlayerTurnEnding]],
        GameEvent::PlayerTurnEnding => &[&[GameEvent::PlayerTurnEnded]],
        GameEvent::PlayerTurnEnded => &[
            &[GameEvent::GameWillEnd],
            &[GameEvent::PlayerTurnWillStart],
        ],
        GameEvent::GameWillEnd => &[&[GameEvent::GameEnding]],
        GameEvent::GameEnding => &[&[GameEvent::GameEnded]],
        GameEvent::GameEnded => &[&[]],
    }
}

/// Whether the scores of all players are told at an event of the game.
pub fn tells_scores(event: GameEvent) -> bool
    ensures { result ≡ tells_scores event }
{
    matches!(event, GameEvent::GameEnded)
}

/// Whether a ball is asked for at an event of the game.
pub fn asks_for_ball(event: GameEvent) -> bool
    ensures { result ≡ asks_for_ball event }
{
    matches!(event, GameEvent::BallStarting)
}

/// Whether an event of the game says that a ball has drained. A ball save may save that ball.
pub fn is_drain(event: GameEvent) -> bool
    ensures { result ≡ is_drain event }
{
    matches!(event, GameEvent::BallDrain)
}
