//! What a device remembers, and what it knows of the game.

/// What a device knows of the game.
#[derive(Clone, Copy)]
pub struct World {
    /// How many games have begun.
    pub games: u64,
    /// The current player, from 1 to 4; 0 if there is none.
    pub player: usize,
    /// How many balls are in play: 0 outside the phase `Ball` of the game.
    pub in_play: u32,
}

/// What a counter remembers for one player.
#[derive(Clone, Copy)]
pub struct CounterSlot {
    /// The game to which it belongs, as [`World::games`] counts it; 0 if it is of no game, or if no
    /// game has used it yet.
    pub game: u64,
    pub enabled: bool,
    /// Within plus or minus 999,999,999,999,999.
    pub value: i64,
    /// The moment of the last counted hit.
    pub last_hit: Option<u64>,
}

/// What an accrual remembers for one player.
#[derive(Clone, Copy)]
pub struct AccrualSlot {
    /// The game to which it belongs, as [`World::games`] counts it; 0 if it is of no game, or if no
    /// game has used it yet.
    pub game: u64,
    pub enabled: bool,
    /// Which steps are done.
    pub done: [bool; 16],
}

/// What a sequence remembers for one player.
#[derive(Clone, Copy)]
pub struct SequenceSlot {
    /// The game to which it belongs, as [`World::games`] counts it; 0 if it is of no game, or if no
    /// game has used it yet.
    pub game: u64,
    pub enabled: bool,
    /// How many steps are done: the number of the next one.
    pub next: usize,
}

/// What a timer remembers.
#[derive(Clone, Copy)]
pub struct TimerState {
    /// Within plus or minus 999,999,999,999,999.
    pub value: i64,
    /// The moment of the next tick, while the timer runs.
    pub due: Option<u64>,
}

/// What a bank of shots remembers for one player.
#[derive(Clone, Copy)]
pub struct BankSlot {
    /// The game to which it belongs, as [`World::games`] counts it; 0 if no game has used it yet.
    pub game: u64,
    /// Which shots are enabled, by their numbers.
    pub enabled: [bool; 16],
    /// The state of each shot: the number of a state of the profile.
    pub states: [u8; 16],
}

/// What a flipper remembers.
#[derive(Clone, Copy)]
pub struct FlipperState {
    /// Whether its button moves it.
    pub enabled: bool,
    /// Whether it is up.
    pub on: bool,
}

/// What an autofire coil remembers.
#[derive(Clone, Copy)]
pub struct AutofireState {
    /// Whether its switch fires it.
    pub enabled: bool,
}

/// What a ball device remembers of one of its ball switches.
#[derive(Clone, Copy)]
pub struct BallSwitch {
    /// Whether a ball counts as lying at it.
    pub counted: bool,
    /// The moment at which `counted` changes, if the switch stays as it is.
    pub due: Option<u64>,
}

/// The greatest number of an attempt, if there is no limit on attempts.
pub const GREATEST_ATTEMPT: u16 = 1000;

/// An attempt to eject a ball.
#[derive(Clone, Copy)]
pub struct Attempt {
    /// Its number: the first is 1. Without a limit on attempts, it stays at `GREATEST_ATTEMPT` once it is there.
    pub number: u16,
    /// The moment at which it is over, if nothing has ended it before.
    pub timeout: u64,
}

/// How far a ball device has come with ejecting a ball.
#[derive(Clone, Copy)]
pub enum Eject {
    /// It ejects none.
    Idle,
    /// It attempts to eject a ball, which has not left yet.
    Pulsing(Attempt),
    /// The ball has left, and has not arrived yet.
    Away(Attempt),
}

/// What a ball device remembers.
#[derive(Clone, Copy)]
pub struct BallState {
    /// Its ball switches, by their numbers. Those that it does not have stay empty.
    pub switches: [BallSwitch; 16],
    pub eject: Eject,
    /// How many balls a trough owes, with the one that it is ejecting or that is on its way.
    pub wanted: u8,
}

/// What a ball save remembers.
#[derive(Clone, Copy)]
pub struct SaveState {
    /// Whether it saves balls.
    pub active: bool,
    /// How many balls it still saves, while it is active.
    pub balls_left: u8,
    /// The moment at which it is disabled, if it has an end.
    pub due: Option<u64>,
}

/// What a multiball remembers.
#[derive(Clone, Copy)]
pub struct MultiballState {
    /// Whether it has started, and has not ended yet.
    pub running: bool,
}

/// What a device remembers. A persistent block and a bank of shots have a slot for each player. Another block uses
/// only the first: the other three may hold anything that has the shape of a slot.
#[derive(Clone, Copy)]
pub enum DeviceState {
    Counter([CounterSlot; 4]),
    Accrual([AccrualSlot; 4]),
    Sequence([SequenceSlot; 4]),
    Timer(TimerState),
    Bank([BankSlot; 4]),
    Flipper(FlipperState),
    Autofire(AutofireState),
    BallDevice(BallState),
    BallSave(SaveState),
    Multiball(MultiballState),
}
