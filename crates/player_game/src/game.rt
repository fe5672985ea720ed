//! The steps of the game.

ghost use Rattle.std.specs.Prelude.{◌≡◌, false, [], ◌∷◌};
ghost use Rattle.player_game.specs.GameStep.{GameState, is_ball_on, is_none, is_over, turn_ended};
ghost use Rattle.player_game.specs.Players.{add_player, next_ball, make_current};

use crate::players::Players;
use arrayvec::ArrayVec;
use device_objects::World;
use plan_tables::{GameEvent, GameRules, ModeId, Plan};
use std::marker::Model;

/// No more games begin.
const MOST_GAMES: u64 = 1 << 32;

/// How far the game has come.
#[derive(Clone, Copy, PartialEq, Eq)]
pub enum GamePhase {
    /// No game goes on.
    None,
    /// A game goes on, and no ball of it.
    Between,
    /// A ball is on.
    Ball,
}

impl GamePhase {
    /// Whether no game goes on.
    fn is_none(self) -> bool
        ensures { result ≡ is_none self }
    {
        match self {
            GamePhase::None => true,
            GamePhase::Between | GamePhase::Ball => false,
        }
    }

    /// Whether a ball is on.
    fn is_ball_on(self) -> bool
        ensures { result ≡ is_ball_on self }
    {
        match self {
            GamePhase::Ball => true,
            GamePhase::None | GamePhase::Between => false,
        }
    }
}

/// What an event of the game leads to, besides the new state.
#[derive(Drop)]
pub struct GameWork {
    /// These events go to the end of the queue.
    pub posts: ArrayVec<GameEvent, 2>,
    /// A ball is requested.
    pub requests: bool,
    /// The scores of all players are told.
    pub finals: bool,
}

impl GameWork {
    /// Nothing.
    fn nothing() -> GameWork
        ensures posts { result.posts.items ≡ [] }
        ensures requests { result.requests ≡ false }
        ensures finals { result.finals ≡ false }
    {
        GameWork {
            posts: ArrayVec::new(),
            requests: false,
            finals: false,
        }
    }

    /// This event is posted.
    fn posting(event: GameEvent) -> GameWork
        ensures posts { result.posts.items ≡ event ∷ [] }
        ensures requests { result.requests ≡ false }
        ensures finals { result.finals ≡ false }
    {
        let mut work = GameWork::nothing();
        work.posts.push(event);
        work
    }

    /// These two events are posted.
    fn posting_both(first: GameEvent, second: GameEvent) -> GameWork
        ensures posts { result.posts.items ≡ first ∷ second ∷ [] }
        ensures requests { result.requests ≡ false }
        ensures finals { result.finals ≡ false }
    {
        let mut work = GameWork::posting(first);
        work.posts.push(second);
        work
    }
}

/// The game of a plan: its phase, how many games have begun, how many balls are in play, and which
/// modes hold the end of the ball. No call takes memory.
#[derive(Drop)]
pub struct Game {
    rules: Option<GameRules>,
    phase: GamePhase,
    begun: u64,
    balls: u32,
    /// At each mode's number whether the mode holds the end of the ball.
    holders: [bool; 64],
}

impl Model for Game {
    ghost use Rattle.player_game.specs.GameStep.{GameView};

    ghost Value = { GameView };

    ghost view = { λ g.
        record {
          rules = g.rules;
          state = record {
            phase = g.phase;
            begun = g.begun;
            balls = g.balls;
            holders = g.holders;
          };
        } };
}

impl Game {
    ghost use Rattle.std.specs.Prelude.{◌≡◌, ◌<◌, true, false, [], ◌∷◌};
    ghost use Rattle.player_game.specs.GameStep.{ball_ending, ball_started, can_begin, can_join, drain, end_game};
    ghost use Rattle.player_game.specs.GameStep.{ends_ball, game_step, hold, in_play, is_held, missing, more_balls};
    ghost use Rattle.player_game.specs.GameStep.{no_game, release, start_game};
    ghost use Rattle.player_game.specs.Players.{PlayersState, make_current};

    /// The game of a plan. No game goes on, and none has begun.
    pub fn new(plan: &Plan) -> Game
        ensures { result ≡ record { rules = plan.now.game; state = no_game } }
    {
        Game {
            rules: plan.game(),
            phase: GamePhase::None,
            begun: 0,
            balls: 0,
            holders: [false; 64],
        }
    }

    /// How far the game has come.
    pub fn phase(&self) -> GamePhase
        ensures { result ≡ self.now.state.phase }
    {
        self.phase
    }

    /// How many games have begun.
    pub fn begun(&self) -> u64
        ensures { result ≡ self.now.state.begun }
    {
        self.begun
    }

    /// What devices know of the game.
    pub fn world(&self, players: &Players<'_>) -> World
        ensures games { result.games ≡ self.now.state.begun }
        ensures player { result.player ≡ players.now.state.current }
        ensures in_play { result.in_play ≡ in_play self.now.state }
    {
        World {
            games: self.begun,
            player: players.current(),
            in_play: self.in_play(),
        }
    }

    /// How many balls are in play: none unless a ball is on.
    pub fn in_play(&self) -> u32
        ensures { result ≡ in_play self.now.state }
    {
        if self.phase.is_ball_on() {
            self.balls
        } else {
            0
        }
    }

    /// While a ball is on, at least so many balls are in play from now on. Reports how many were missing for that.
    /// While no ball is on nothing changes, and the answer is 0.
    pub fn add_balls(&mut self, balls: u8) -> u8
        ensures game { self.new ≡ record self.old { state = more_balls balls self.old.state } }
        ensures missing { result ≡ missing balls self.old.state }
    {
        if !self.phase.is_ball_on() {
            return 0;
        }
        let missing = u32::from(balls).saturating_sub(self.balls);
        self.balls += missing;
        missing as u8
    }

    /// Does what the machine itself does when it takes this event of the game, while so many balls
    /// are at home. Reports what follows. Without a game nothing changes, and nothing follows.
    #[tactic(auto, unfolding(crate::specs::GameStep::game_step))]
    pub fn work(&mut self, event: GameEvent, players: &mut Players<'_>, home: u64) -> GameWork
        ensures game { self.new ≡ record self.old
            { state = (game_step self.old.rules players.old.plan event home self.old.state players.old.state).game } }
        ensures players { players.new ≡ record players.old {
          state = (game_step self.old.rules players.old.plan event home self.old.state players.old.state).players;
        } }
        ensures posts { result.posts.items
            ≡ (game_step self.old.rules players.old.plan event home self.old.state players.old.state).posts }
        ensures requests { result.requests
            ≡ (game_step self.old.rules players.old.plan event home self.old.state players.old.state).requests }
        ensures finals { result.finals ≡ (game_step self.old.rules players.old.plan event home self.old.state
            players.old.state).finals }
    {
        let Some(rules) = self.rules else {
            return GameWork::nothing();
        };
        match event {
            GameEvent::SwStart => self.start(rules, players, home),
            GameEvent::GameWillStart => GameWork::posting(GameEvent::GameStarting),
            GameEvent::GameStarting => GameWork::posting_both(
                GameEvent::PlayerAdded,
                GameEvent::GameStarted,
            ),
            GameEvent::PlayerAdded => add(players),
            GameEvent::GameStarted => turn_first(players),
            GameEvent::PlayerTurnWillStart => GameWork::posting(GameEvent::PlayerTurnStarting),
            GameEvent::PlayerTurnStarting => GameWork::posting(GameEvent::PlayerTurnStarted),
            GameEvent::PlayerTurnStarted => go_on(players),
            GameEvent::BallWillStart => GameWork::posting(GameEvent::BallStarting),
            GameEvent::BallStarting => self.start_ball(),
            GameEvent::BallStarted => GameWork::nothing(),
            GameEvent::BallDrain => self.drain(),
            GameEvent::BallWillEnd => GameWork::posting(GameEvent::BallEnding),
            GameEvent::BallEnding => self.end_ball(),
            GameEvent::BallEnded => GameWork::posting(GameEvent::PlayerTurnWillEnd),
            GameEvent::PlayerTurnWillEnd => GameWork::posting(GameEvent::PlayerTurnEnding),
            GameEvent::PlayerTurnEnding => GameWork::posting(GameEvent::PlayerTurnEnded),
            GameEvent::PlayerTurnEnded => end_turn(rules, players),
            GameEvent::GameWillEnd => GameWork::posting(GameEvent::GameEnding),
            GameEvent::GameEnding => GameWork::posting(GameEvent::GameEnded),
            GameEvent::GameEnded => self.end(players),
        }
    }

    /// The start button: a game begins, or a player joins, or nothing happens.
    fn start(&mut self, rules: GameRules, players: &mut Players<'_>, home: u64) -> GameWork
        ensures game { self.new ≡ record self.old
            { state = (start_game rules players.old.plan home self.old.state players.old.state).game } }
        ensures players { players.new ≡ record players.old
            { state = (start_game rules players.old.plan home self.old.state players.old.state).players } }
        ensures posts { result.posts.items
            ≡ (start_game rules players.old.plan home self.old.state players.old.state).posts }
        ensures requests { result.requests ≡ false }
        ensures finals { result.finals ≡ false }
    {
        if self.can_begin(rules, home) {
            self.phase = GamePhase::Between;
            self.begun += 1;
            players.clear();
            return GameWork::posting(GameEvent::GameWillStart);
        }
        if self.can_join(rules, players) {
            return GameWork::posting(GameEvent::PlayerAdded);
        }
        GameWork::nothing()
    }

    /// Whether a game begins: none goes on, fewer than 2^32 have begun, and enough balls are at home.
    fn can_begin(&self, rules: GameRules, home: u64) -> bool
        ensures { result ≡ can_begin rules home self.now.state }
    {
        self.phase.is_none() && self.begun < MOST_GAMES && u64::from(rules.min_balls) <= home
    }

    /// Whether a player joins: a ball is on, the current player is at their first, and there can be
    /// one player more.
    fn can_join(&self, rules: GameRules, players: &Players<'_>) -> bool
        ensures { result ≡ can_join rules players.now.plan self.now.state players.now.state }
    {
        self.phase.is_ball_on()
            && players.ball() == 1
            && players.count() < rules.max_players as usize
    }

    /// A ball begins, and is requested.
    fn start_ball(&mut self) -> GameWork
        ensures game { self.new ≡ record self.old { state = ball_started self.old.state } }
        ensures posts { result.posts.items ≡ GameEvent.BallStarted ∷ [] }
        ensures requests { result.requests ≡ true }
        ensures finals { result.finals ≡ false }
    {
        self.phase = GamePhase::Ball;
        self.balls = 1;
        let mut work = GameWork::posting(GameEvent::BallStarted);
        work.requests = true;
        work
    }

    /// A ball is lost: the last one ends the turn.
    fn drain(&mut self) -> GameWork
        ensures game { (players : PlayersState)
            → self.new ≡ record self.old { state = (drain self.old.state players).game } }
        ensures posts { (players : PlayersState) → result.posts.items ≡ (drain self.old.state players).posts }
        ensures requests { result.requests ≡ false }
        ensures finals { result.finals ≡ false }
    {
        if !self.phase.is_ball_on() {
            return GameWork::nothing();
        }
        self.balls = self.balls.saturating_sub(1);
        if self.balls > 0 {
            return GameWork::nothing();
        }
        self.phase = GamePhase::Between;
        GameWork::posting(GameEvent::BallWillEnd)
    }

    /// What `ball_ending` leads to: `ball_ended`, unless a mode holds the end of the ball.
    fn end_ball(&self) -> GameWork
        ensures posts { result.posts.items ≡ ball_ending self.now.state }
        ensures requests { result.requests ≡ false }
        ensures finals { result.finals ≡ false }
    {
        if self.is_held() {
            return GameWork::nothing();
        }
        GameWork::posting(GameEvent::BallEnded)
    }

    /// Whether any mode holds the end of the ball.
    fn is_held(&self) -> bool
        ensures { result ≡ is_held self.now.state }
    {
        self.holders.iter().any(|holds| *holds)
    }

    /// A mode, numbered below 64, holds the end of the ball from now on. To be called only if
    /// `Plan::may_hold_ball_end` holds.
    pub fn hold(&mut self, mode: ModeId)
        requires { mode.0 < 64 }
        ensures { self.new ≡ record self.old { state = hold mode self.old.state } }
    {
        self.holders[mode.0 as usize] = true;
    }

    /// A mode, numbered below 64, no longer holds the end of the ball. Reports whether `ball_ended` is to be
    /// posted: the mode held the end of the ball, and no other mode does.
    pub fn release(&mut self, mode: ModeId) -> bool
        requires { mode.0 < 64 }
        ensures state { self.new ≡ record self.old { state = release mode self.old.state } }
        ensures ends { result ≡ ends_ball mode self.old.state }
    {
        let number = mode.0 as usize;
        let is_holder = self.holders[number];
        self.holders[number] = false;
        is_holder && !self.is_held()
    }

    /// The game ends, and the scores are told.
    fn end(&mut self, players: &mut Players<'_>) -> GameWork
        ensures game { self.new ≡ record self.old { state = end_game self.old.state } }
        ensures players { players.new ≡ record players.old { state = make_current 0 players.old.state } }
        ensures posts { result.posts.items ≡ [] }
        ensures requests { result.requests ≡ false }
        ensures finals { result.finals ≡ true }
    {
        self.phase = GamePhase::None;
        self.balls = 0;
        players.turn(0);
        let mut work = GameWork::nothing();
        work.finals = true;
        work
    }
}

/// There is one player more, if there can be.
fn add(players: &mut Players<'_>) -> GameWork
    ensures players { players.new ≡ record players.old { state = add_player players.old.plan players.old.state } }
    ensures posts { result.posts.items ≡ [] }
    ensures requests { result.requests ≡ false }
    ensures finals { result.finals ≡ false }
{
    players.add();
    GameWork::nothing()
}

/// The first player's turn is to start.
fn turn_first(players: &mut Players<'_>) -> GameWork
    ensures players { players.new ≡ record players.old { state = make_current 1 players.old.state } }
    ensures posts { result.posts.items ≡ GameEvent.PlayerTurnWillStart ∷ [] }
    ensures requests { result.requests ≡ false }
    ensures finals { result.finals ≡ false }
{
    players.turn(1);
    GameWork::posting(GameEvent::PlayerTurnWillStart)
}

/// The current player goes on to the next ball.
fn go_on(players: &mut Players<'_>) -> GameWork
    ensures players { players.new ≡ record players.old { state = next_ball players.old.plan players.old.state } }
    ensures posts { result.posts.items ≡ GameEvent.BallWillStart ∷ [] }
    ensures requests { result.requests ≡ false }
    ensures finals { result.finals ≡ false }
{
    players.next_ball();
    GameWork::posting(GameEvent::BallWillStart)
}

/// The turn has ended: the game is over, or the next player's turn is to start.
fn end_turn(rules: GameRules, players: &mut Players<'_>) -> GameWork
    ensures players { (game : GameState) → players.new
        ≡ record players.old { state = (turn_ended rules players.old.plan game players.old.state).players } }
    ensures posts { (game : GameState) → result.posts.items
        ≡ (turn_ended rules players.old.plan game players.old.state).posts }
    ensures requests { result.requests ≡ false }
    ensures finals { result.finals ≡ false }
{
    if is_over(rules, players) {
        return GameWork::posting(GameEvent::GameWillEnd);
    }
    let current = players.current();
    let next = if current == players.count() {
        1
    } else {
        current + 1
    };
    players.turn(next);
    GameWork::posting(GameEvent::PlayerTurnWillStart)
}

/// Whether the game is over: it was the last ball of the last player.
fn is_over(rules: GameRules, players: &Players<'_>) -> bool
    ensures { result ≡ is_over rules players.now.plan players.now.state }
{
    let current = players.current();
    current != 0 && current == players.count() && players.ball() == i64::from(rules.balls_per_game)
}
