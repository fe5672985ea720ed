//! The entries of a plan's tables.

use crate::devices::{Act, RowId};
use machine_settings::{Contact, VariableAction};
use mpf_values::Comparison;

/// An event, by its number in order of first use: below 4,096.
#[derive(Clone, Copy, Debug, PartialEq, Eq)]
pub struct EventId(pub u16);

/// A switch, by its number in order of first use: below 256.
#[derive(Clone, Copy, Debug)]
pub struct SwitchId(pub u16);

/// How a switch's raw levels are read.
#[derive(Clone, Copy, Debug)]
pub struct SwitchKind {
    /// Which raw level is active.
    pub contact: Contact,
    /// Whether a raw level is accepted at once; if not, it has to last for 5 ms.
    pub quick: bool,
}

/// A coil, by its number in order of first use: below 256.
#[derive(Clone, Copy, Debug, Default, PartialEq, Eq)]
pub struct CoilId(pub u16);

/// What a coil may be sent. Powers are in thousandths of full power: at most 1,000.
#[derive(Clone, Copy, Debug)]
pub struct CoilLimits {
    /// The greatest length of a pulse, in milliseconds: from 1 to 5,000.
    pub max_pulse_ms: u32,
    /// The greatest power of a pulse.
    pub max_pulse_power: u16,
    /// The greatest power with which the coil may be held.
    pub max_hold_power: u16,
    /// Whether the coil may be held at all: enabled until it is disabled.
    pub may_hold: bool,
}

/// A variable of the players, by its number in order of first use: below 256.
#[derive(Clone, Copy, Debug, PartialEq, Eq)]
pub struct VariableId(pub u16);

/// A comparison of a variable of the current player with a number.
#[derive(Clone, Copy, Debug)]
pub struct Condition {
    pub variable: VariableId,
    pub comparison: Comparison,
    pub number: i64,
}

/// An effect list, by its number: below 311,296.
#[derive(Clone, Copy, Debug)]
pub struct ListId(pub u32);

/// A binding, by its place in plan order: below 16,384.
#[derive(Clone, Copy, Debug)]
pub struct BindingId(pub u16);

/// A mode, by its place in the list of the machine's modes: below 64.
#[derive(Clone, Copy, Debug, PartialEq, Eq)]
pub struct ModeId(pub u16);

/// Which of the five events of a mode.
#[derive(Clone, Copy, Debug, PartialEq, Eq)]
pub enum ModeEvent {
    WillStart,
    Starting,
    Started,
    Stopping,
    Stopped,
}

/// The events of a mode, in the order in which they come when it starts and stops.
#[derive(Clone, Copy)]
pub struct ModeEvents {
    /// `mode_NAME_will_start`: the mode is to start.
    pub will_start: EventId,
    /// `mode_NAME_starting`: it starts.
    pub starting: EventId,
    /// `mode_NAME_started`: it is active.
    pub started: EventId,
    /// `mode_NAME_stopping`: it stops.
    pub stopping: EventId,
    /// `mode_NAME_stopped`: it has stopped.
    pub stopped: EventId,
}

/// What a plan says of a mode, besides its name.
#[derive(Clone, Copy)]
pub struct Mode {
    /// The priority of its bindings: at most 1,000,000.
    pub priority: u32,
    /// Whether it starts only in a game.
    pub game: bool,
    /// Whether its settings say that it holds the end of the ball, from its start until it has stopped.
    /// [`crate::Plan::may_hold_ball_end`] says whether it does.
    pub holds_ball_end: bool,
    /// The events that it posts.
    pub events: ModeEvents,
}

/// Which of the events of the game.
#[derive(Clone, Copy, Debug, Default, PartialEq, Eq)]
pub enum GameEvent {
    /// `sw_start`: a switch with the tag `start` becomes active.
    #[default]
    SwStart,
    GameWillStart,
    GameStarting,
    PlayerAdded,
    GameStarted,
    PlayerTurnWillStart,
    PlayerTurnStarting,
    PlayerTurnStarted,
    BallWillStart,
    BallStarting,
    BallStarted,
    BallDrain,
    BallWillEnd,
    BallEnding,
    BallEnded,
    PlayerTurnWillEnd,
    PlayerTurnEnding,
    PlayerTurnEnded,
    GameWillEnd,
    GameEnding,
    GameEnded,
}

/// The events of the game, in the order of [`GameEvent::index`].
pub const GAME_EVENTS: [GameEvent; 21] = [
    GameEvent::SwStart,
    GameEvent::GameWillStart,
    GameEvent::GameStarting,
    GameEvent::PlayerAdded,
    GameEvent::GameStarted,
    GameEvent::PlayerTurnWillStart,
    GameEvent::PlayerTurnStarting,
    GameEvent::PlayerTurnStarted,
    GameEvent::BallWillStart,
    GameEvent::BallStarting,
    GameEvent::BallStarted,
    GameEvent::BallDrain,
    GameEvent::BallWillEnd,
    GameEvent::BallEnding,
    GameEvent::BallEnded,
    GameEvent::PlayerTurnWillEnd,
    GameEvent::PlayerTurnEnding,
    GameEvent::PlayerTurnEnded,
    GameEvent::GameWillEnd,
    GameEvent::GameEnding,
    GameEvent::GameEnded,
];

impl GameEvent {
    ghost use Rattle.std.specs.Prelude.{◌≡◌};
    ghost use Rattle.plan_tables.specs.GameEvents.{order_of};

    /// The place in [`GAME_EVENTS`].
    pub fn index(self) -> usize
        ensures { result ≡ order_of self }
    {
        self as usize
    }
}

/// What a plan says of the game.
#[derive(Clone, Copy)]
pub struct GameRules {
    /// The fewest balls in devices tagged `trough` or `home` with which a game begins: at most 99.
    pub min_balls: u32,
    /// How many balls each player has: from 1 to 99.
    pub balls_per_game: u32,
    /// At most so many players: from 1 to 4.
    pub max_players: u32,
    /// Each at its place in [`GAME_EVENTS`].
    pub events: [EventId; 21],
}

/// What the machine itself does when it takes an event.
#[derive(Clone, Copy, Debug)]
pub enum Work {
    /// Nothing: only its handlers run.
    Nothing,
    /// The next step in the life of the mode, of which it is this event.
    Mode(ModeId, ModeEvent),
    /// The next step of the game, of which it is this event.
    Game(GameEvent),
}

/// Who acts.
#[derive(Clone, Copy, Debug, PartialEq, Eq)]
pub enum Owner {
    /// What the machine text has.
    Machine,
    /// What the text of a mode has.
    Mode(ModeId),
}

impl Owner {
    ghost use Rattle.std.specs.Prelude.{◌≡◌};
    ghost use Rattle.plan_tables.specs.PlanView.{is_owner};

    /// Whether the two are the same.
    pub fn is(self, other: Owner) -> bool
        ensures { result ≡ is_owner self other }
    {
        match (self, other) {
            (Owner::Machine, Owner::Machine) => true,
            (Owner::Mode(mode), Owner::Mode(another)) => mode.0 == another.0,
            _ => false,
        }
    }
}

/// One thing that an effect list does.
#[derive(Clone, Copy, Debug)]
pub enum Action {
    /// The event goes to the end of the queue.
    Post(EventId),
    /// The coil is pulsed, for so many milliseconds and with this power in thousandths.
    Pulse {
        coil: CoilId,
        ms: u32,
        power: u16,
    },
    /// The coil is enabled with this power in thousandths, until it is disabled.
    Enable {
        coil: CoilId,
        power: u16,
    },
    /// The coil is disabled.
    Disable {
        coil: CoilId,
    },
    /// This is done with a variable of the current player. If that changes the variable, the
    /// event goes to the end of the queue.
    Change {
        variable: VariableId,
        action: VariableAction,
        number: i64,
        event: EventId,
    },
    /// A ball enters the ball device, and the event goes to the end of the queue. If the ball was on its
    /// way there, the device that ejected it is told so. If it was not, `drain` holds and the game is in
    /// phase Ball, `ball_drain` is posted.
    Enter {
        device: RowId,
        event: EventId,
        drain: bool,
    },
    /// The ball that the ball device ejects leaves it, and is on its way to the device's target.
    Leave {
        device: RowId,
    },
    /// A ball leaves the ball device without being ejected, and is on the playfield.
    Lose {
        device: RowId,
    },
    /// A ball on its way to the ball device's target is on the playfield.
    Arrive {
        device: RowId,
    },
    /// The first trough, if there is one, is asked to eject this many more balls.
    Request {
        balls: u8,
    },
    /// At least this many balls are to be in play: if fewer are in play, those that are missing are in play from
    /// now on, and the first trough, if there is one, is asked to eject them.
    AddBalls {
        balls: u8,
    },
}

/// What a binding does when its turn comes.
#[derive(Clone, Copy, Debug)]
pub enum Target {
    /// The actions of the effect list, in order.
    Run(ListId),
    /// The mode is told to start.
    Start(ModeId),
    /// The mode is told to stop.
    Stop(ModeId),
    /// The device is told to do this.
    Act(RowId, Act),
}

/// What is done when an event is handled.
#[derive(Clone, Copy, Debug)]
pub struct Binding {
    /// The event that is handled.
    pub event: EventId,
    /// Who handles it.
    pub owner: Owner,
    /// Handlers of an event with a higher priority run first: at most 1,000,000.
    pub priority: u32,
    /// It is done only if this is met; none: always.
    pub condition: Option<Condition>,
    /// What is done.
    pub target: Target,
}

/// A device that listens to a switch.
#[derive(Clone, Copy, Debug)]
pub struct Listener {
    /// The device.
    pub row: RowId,
    /// Which switch of the device it is, by its number from 0.
    pub switch: usize,
}

impl Listener {
    ghost use Rattle.std.specs.Prelude.{◌≡◌};
    ghost use Rattle.plan_tables.specs.PlanView.{act_of_listener};

    /// What the device is told when the switch becomes active, or inactive.
    pub fn act(self, active: bool) -> Act
        ensures { result ≡ act_of_listener active self }
    {
        if active {
            Act::SwitchOn(self.switch)
        } else {
            Act::SwitchOff(self.switch)
        }
    }
}

/// How a switch is read, which devices listen to it, and what it posts when it becomes active, and
/// when it becomes inactive.
#[derive(Drop)]
pub struct SwitchEntry {
    /// How it is read.
    pub kind: SwitchKind,
    /// The devices that listen to it, in the order of their rows.
    pub listeners: Vec<Listener>,
    /// Whether a ball that presses it has arrived on the playfield: it is tagged `playfield_active`.
    pub confirms_playfield: bool,
    /// What it posts, in order, when it becomes active.
    pub active: Vec<EventId>,
    /// What it posts, in order, when it becomes inactive.
    pub inactive: Vec<EventId>,
}

/// A mode, with its name.
#[derive(Drop)]
pub struct ModeEntry {
    /// Its name, as it is listed.
    pub name: Vec<u8>,
    /// What else the plan says of it.
    pub mode: Mode,
}
