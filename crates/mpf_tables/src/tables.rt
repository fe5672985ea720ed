//! The tables of the sections: what settings each has. The order decides which of several missing
//! settings is reported.

ghost use Rattle.std.specs.Prelude.{◌≡◌, ℕ, List, Some};
ghost use Rattle.mpf_tables.specs.declared.tables.TextKind.{TextKind as Text};
ghost use Rattle.mpf_tables.specs.declared.tables.TextKind.TheVariants.{Machine, Mode};
ghost use Rattle.section_tables.specs.Shapes.{Shape as SectionShape};
ghost use Rattle.mpf_tables.specs.SectionTables.{save_shapes, shot_shapes, block_shapes, shared_shapes, device_shapes};
ghost use Rattle.mpf_tables.specs.SectionTables.{named_in, shape_of};
ghost use Rattle.mpf_tables.specs.TableRules.{IsRight};
ghost use Rattle.setting_values.specs.Reading.{give};
ghost use Rattle.section_tables.specs.TableView.{shape_view};

use section_tables::table::{BarredNames, PlayerKinds, Setting, Shape, Without};
use setting_values::kinds::{Absent, Bounds, Field, Kind, Others, Scalar};

macro_rules! setting {
    ($key:expr, $kind:expr, $without:expr) => {
        Setting {
            key: $key,
            kind: $kind,
            without: $without,
        }
    };
}

macro_rules! block_settings {
    ($($own:expr),*) => {
        &[
            $($own,)*
            setting!(b"reset_on_complete", FLAG, YES),
            setting!(b"disable_on_complete", FLAG, YES),
            setting!(b"persist_state", FLAG, NO),
            setting!(b"enable_events", EVENTS, Without::NoEvents),
            setting!(b"disable_events", EVENTS, Without::NoEvents),
            setting!(b"reset_events", EVENTS, Without::NoEvents),
            setting!(b"restart_events", EVENTS, Without::NoEvents),
            setting!(b"events_when_hit", Kind::Posts(ANY), Without::NoPosts),
            setting!(b"events_when_complete", Kind::Posts(ANY), Without::NoPosts),
        ]
    };
}

macro_rules! field {
    ($key:expr, $kind:expr, $absent:expr) => {
        Field {
            key: $key,
            kind: $kind,
            absent: $absent,
        }
    };
}

const ANY: Bounds = Bounds::AtLeast(0);

/// Handled events.
const EVENTS: Kind = Kind::Events(ANY);

const FLAG: Kind = Kind::One(Scalar::Flag);

const YES: Without = Without::One(Absent::Flag(true));

const NO: Without = Without::One(Absent::Flag(false));

const ANY_NUMBER: Scalar = Scalar::Number(-1_000_000_000, 1_000_000_000);

const NUMBER: Kind = Kind::One(ANY_NUMBER);

const ZERO: Without = Without::One(Absent::Number(0));

const NOTHING: Without = Without::One(Absent::Nothing);

const REQUIRED_VALUE: Without = Without::One(Absent::Required);

const NAME: Kind = Kind::One(Scalar::Name);

/// The length of a pulse.
const PULSE: Scalar = Scalar::Time(1, 5_000);

const POWER: Kind = Kind::One(Scalar::Power);

const FULL_POWER: Without = Without::One(Absent::Power(1_000));

/// A time of at least a millisecond.
const SOME_TIME: Kind = Kind::One(Scalar::Time(1, u32::MAX));

const ANY_TIME: Kind = Kind::One(Scalar::Time(0, u32::MAX));

const NO_TIME: Without = Without::One(Absent::Time(0));

const DIRECTION: Setting = setting!(
    b"direction",
    Kind::One(Scalar::Word(&[b"up", b"down"])),
    Without::One(Absent::Word(b"up"))
);

/// `switches`.
pub const SWITCHES: &[Setting] = &[
    setting!(
        b"type",
        Kind::One(Scalar::Word(&[b"NO", b"NC"])),
        Without::One(Absent::Word(b"NO"))
    ),
    setting!(
        b"debounce",
        Kind::One(Scalar::Word(&[b"auto", b"quick", b"normal"])),
        Without::One(Absent::Word(b"auto"))
    ),
    setting!(b"tags", Kind::Names(ANY), Without::NoNames),
    setting!(b"events_when_activated", Kind::Posts(ANY), Without::NoPosts),
    setting!(
        b"events_when_deactivated",
        Kind::Posts(ANY),
        Without::NoPosts
    ),
];

/// `coils`.
pub const COILS: &[Setting] = &[
    setting!(
        b"default_pulse_ms",
        Kind::One(PULSE),
        Without::One(Absent::Time(10))
    ),
    setting!(b"max_pulse_ms", Kind::One(PULSE), NOTHING),
    setting!(b"default_pulse_power", POWER, FULL_POWER),
    setting!(b"max_pulse_power", POWER, FULL_POWER),
    setting!(b"allow_enable", FLAG, NO),
    setting!(b"default_hold_power", POWER, NOTHING),
    setting!(b"max_hold_power", POWER, NOTHING),
];

/// The events that enable and disable a coil rule: by default when a ball starts, and when it ends.
const RULE_ENABLES: Setting = setting!(b"enable_events", EVENTS, Without::Event(b"ball_started"));

const RULE_DISABLES: Setting = setting!(
    b"disable_events",
    EVENTS,
    Without::Event(b"ball_will_end")
);

/// `flippers`.
pub const FLIPPERS: &[Setting] = &[
    setting!(b"main_coil", NAME, REQUIRED_VALUE),
    setting!(b"hold_coil", NAME, NOTHING),
    setting!(b"activation_switch", NAME, REQUIRED_VALUE),
    RULE_ENABLES,
    RULE_DISABLES,
];

/// `autofire_coils`.
pub const AUTOFIRE_COILS: &[Setting] = &[
    setting!(b"coil", NAME, REQUIRED_VALUE),
    setting!(b"switch", NAME, REQUIRED_VALUE),
    RULE_ENABLES,
    RULE_DISABLES,
];

/// `counters`.
pub const COUNTERS: &[Setting] = block_settings!(
    setting!(b"count_events", EVENTS, REQUIRED_VALUE),
    setting!(b"starting_count", NUMBER, ZERO),
    setting!(
        b"count_interval",
        Kind::One(Scalar::Number(1, 1_000_000)),
        Without::One(Absent::Number(1))
    ),
    setting!(b"count_complete_value", NUMBER, NOTHING),
    DIRECTION,
    setting!(b"multiple_hit_window", ANY_TIME, NO_TIME)
);

/// `accruals`, and `sequences`: at most 16 steps.
pub const STEP_BLOCKS: &[Setting] = block_settings!(setting!(
    b"events",
    Kind::Steps(Bounds::Between(0, 16)),
    REQUIRED_VALUE
));

/// The maps of `control_events`.
const CONTROL_EVENTS: &[Field] = &[
    field!(b"event", Scalar::Event, Absent::Required),
    field!(
        b"action",
        Scalar::Word(&[
            b"start",
            b"stop",
            b"pause",
            b"reset",
            b"restart",
            b"add",
            b"subtract",
            b"jump"
        ]),
        Absent::Required
    ),
    field!(b"value", ANY_NUMBER, Absent::Number(0)),
];

/// `timers`.
pub const TIMERS: &[Setting] = &[
    setting!(b"start_value", NUMBER, ZERO),
    setting!(b"end_value", NUMBER, NOTHING),
    DIRECTION,
    setting!(
        b"tick_interval",
        SOME_TIME,
        Without::One(Absent::Time(1_000))
    ),
    setting!(b"start_running", FLAG, NO),
    setting!(b"restart_on_complete", FLAG, NO),
    setting!(
        b"control_events",
        Kind::Maps(CONTROL_EVENTS, Others::Refused, ANY),
        Without::NoMaps
    ),
];

/// The name of the profile that there always is.
pub const DEFAULT_PROFILE: &[u8] = b"default";

/// `shots`.
pub const SHOTS: &[Setting] = &[
    setting!(b"switch", NAME, NOTHING),
    setting!(b"hit_events", EVENTS, Without::NoEvents),
    setting!(
        b"profile",
        NAME,
        Without::One(Absent::Name(DEFAULT_PROFILE))
    ),
    setting!(b"advance_events", EVENTS, Without::NoEvents),
    setting!(b"reset_events", EVENTS, Without::NoEvents),
    setting!(b"enable_events", EVENTS, Without::NoEvents),
    setting!(b"disable_events", EVENTS, Without::NoEvents),
];

/// How many shots a group has, and how many states a profile.
const SOME: Bounds = Bounds::Between(1, 16);

/// `shot_groups`.
pub const SHOT_GROUPS: &[Setting] = &[
    setting!(b"shots", Kind::Names(SOME), REQUIRED_VALUE),
    setting!(b"rotate_events", EVENTS, Without::NoEvents),
    setting!(b"rotate_right_events", EVENTS, Without::NoEvents),
    setting!(b"rotate_left_events", EVENTS, Without::NoEvents),
    setting!(b"reset_events", EVENTS, Without::NoEvents),
];

/// The maps of `states`. How a state is shown is said there too, so other keys are ignored.
const PROFILE_STATE: &[Field] = &[field!(b"name", Scalar::Name, Absent::Required)];

/// `shot_profiles`.
pub const SHOT_PROFILES: &[Setting] = &[
    setting!(
        b"states",
        Kind::NamedMaps(PROFILE_STATE, Others::Ignored, SOME),
        REQUIRED_VALUE
    ),
    setting!(b"advance_on_hit", FLAG, YES),
    setting!(b"loop", FLAG, NO),
];

/// The name of the playfield, to which balls are ejected if nothing else is said. No device has
/// it.
pub const PLAYFIELD: &[u8] = b"playfield";

/// `ball_devices`: at most 16 ball switches. Without a limit on attempts, there are 0.
pub const BALL_DEVICES: &[Setting] = &[
    setting!(
        b"ball_switches",
        Kind::Names(Bounds::Between(0, 16)),
        REQUIRED_VALUE
    ),
    setting!(b"eject_coil", NAME, NOTHING),
    setting!(
        b"eject_targets",
        NAME,
        Without::One(Absent::Name(PLAYFIELD))
    ),
    setting!(
        b"eject_timeouts",
        SOME_TIME,
        Without::One(Absent::Time(10_000))
    ),
    setting!(
        b"entrance_count_delay",
        SOME_TIME,
        Without::One(Absent::Time(500))
    ),
    setting!(
        b"exit_count_delay",
        SOME_TIME,
        Without::One(Absent::Time(500))
    ),
    setting!(b"mechanical_eject", FLAG, NO),
    setting!(
        b"max_eject_attempts",
        Kind::One(Scalar::Number(0, 1_000)),
        ZERO
    ),
    setting!(b"tags", Kind::Names(ANY), Without::NoNames),
];

/// `ball_saves`: an `active_time` of 0 has no end.
pub const BALL_SAVES: &[Setting] = &[
    setting!(b"active_time", ANY_TIME, NO_TIME),
    setting!(
        b"balls_to_save",
        Kind::One(Scalar::Number(1, 99)),
        Without::One(Absent::Number(1))
    ),
    setting!(b"enable_events", EVENTS, Without::NoEvents),
    setting!(b"disable_events", EVENTS, Without::NoEvents),
];

/// `multiballs`: how many balls are to be in play.
pub const MULTIBALLS: &[Setting] = &[
    setting!(
        b"ball_count",
        Kind::One(Scalar::Number(2, 99)),
        REQUIRED_VALUE
    ),
    setting!(b"start_events", EVENTS, Without::NoEvents),
];

/// `mode`: the settings of a mode itself.
pub const MODE: &[Setting] = &[
    setting!(b"start_events", EVENTS, Without::NoEvents),
    setting!(b"stop_events", EVENTS, Without::NoEvents),
    setting!(
        b"priority",
        Kind::One(Scalar::Number(0, 1_000_000)),
        Without::One(Absent::Number(100))
    ),
    setting!(
        b"game_mode",
        Kind::One(Scalar::Flag),
        Without::One(Absent::Flag(true))
    ),
    setting!(
        b"stop_on_ball_end",
        Kind::One(Scalar::Flag),
        Without::One(Absent::Flag(true))
    ),
    setting!(b"use_wait_queue", FLAG, NO),
];

/// `machine`: what holds of the whole machine.
pub const MACHINE: &[Setting] = &[setting!(
    b"min_balls",
    Kind::One(Scalar::Number(0, 99)),
    Without::One(Absent::Number(1))
)];

/// `game`: the settings of the game.
pub const GAME: &[Setting] = &[
    setting!(
        b"balls_per_game",
        Kind::One(Scalar::Number(1, 99)),
        Without::One(Absent::Number(3))
    ),
    setting!(
        b"max_players",
        Kind::One(Scalar::Number(1, 4)),
        Without::One(Absent::Number(4))
    ),
];

/// `event_player`: an event, and what is posted when it is handled.
pub const EVENT_PLAYER: PlayerKinds = PlayerKinds {
    key: Scalar::Event,
    value: Kind::Posts(ANY),
};

const COIL_ACTION: Scalar = Scalar::Word(&[b"pulse", b"enable", b"disable"]);

/// What belongs to a coil in an entry of `coil_player`.
const COIL_ITEM: &[Field] = &[
    field!(b"action", COIL_ACTION, Absent::Required),
    field!(b"pulse_ms", PULSE, Absent::Nothing),
    field!(b"pulse_power", Scalar::Power, Absent::Nothing),
    field!(b"hold_power", Scalar::Power, Absent::Nothing),
];

/// `coil_player`: an event, and what coils do when it is handled. An action may stand alone.
pub const COIL_PLAYER: PlayerKinds = PlayerKinds {
    key: Scalar::Event,
    value: Kind::Keyed(COIL_ITEM, 0, COIL_ACTION),
};

const VARIABLE_ACTION: Scalar = Scalar::Word(&[b"add", b"set"]);

/// What belongs to a variable in an entry of `variable_player`.
const VARIABLE_ITEM: &[Field] = &[
    field!(b"int", ANY_NUMBER, Absent::Required),
    field!(b"action", VARIABLE_ACTION, Absent::Word(b"add")),
];

/// `variable_player`: an event, and what is done with variables when it is handled. A number may
/// stand alone.
pub const VARIABLE_PLAYER: PlayerKinds = PlayerKinds {
    key: Scalar::Event,
    value: Kind::Keyed(VARIABLE_ITEM, 0, ANY_NUMBER),
};

/// The name of the section [`SWITCHES`].
pub const SWITCHES_NAME: &[u8] = b"switches";

/// The name of the section [`EVENT_PLAYER`].
pub const EVENT_PLAYER_NAME: &[u8] = b"event_player";

/// The name of the section [`COILS`].
pub const COILS_NAME: &[u8] = b"coils";

/// The name of the section [`FLIPPERS`].
pub const FLIPPERS_NAME: &[u8] = b"flippers";

/// The name of the section [`AUTOFIRE_COILS`].
pub const AUTOFIRE_COILS_NAME: &[u8] = b"autofire_coils";

/// The name of the section [`BALL_DEVICES`].
pub const BALL_DEVICES_NAME: &[u8] = b"ball_devices";

/// The name of the section [`COIL_PLAYER`].
pub const COIL_PLAYER_NAME: &[u8] = b"coil_player";

/// The name of the section [`VARIABLE_PLAYER`].
pub const VARIABLE_PLAYER_NAME: &[u8] = b"variable_player";

/// The name of the section [`COUNTERS`].
pub const COUNTERS_NAME: &[u8] = b"counters";

/// The name of one of the two sections [`STEP_BLOCKS`].
pub const ACCRUALS_NAME: &[u8] = b"accruals";

/// The name of the other one.
pub const SEQUENCES_NAME: &[u8] = b"sequences";

/// The name of the section [`TIMERS`].
pub const TIMERS_NAME: &[u8] = b"timers";

/// The name of the section [`SHOTS`].
pub const SHOTS_NAME: &[u8] = b"shots";

/// The name of the section [`SHOT_GROUPS`].
pub const SHOT_GROUPS_NAME: &[u8] = b"shot_groups";

/// The name of the section [`SHOT_PROFILES`].
pub const SHOT_PROFILES_NAME: &[u8] = b"shot_profiles";

/// The name of the section [`BALL_SAVES`].
pub const BALL_SAVES_NAME: &[u8] = b"ball_saves";

/// The name of the section [`MULTIBALLS`].
pub const MULTIBALLS_NAME: &[u8] = b"multiballs";

/// The name that no device has.
const NOT_A_DEVICE: BarredNames = BarredNames {
    names: &[PLAYFIELD],
};

/// The name that no entry of [`SHOT_PROFILES`] has.
const NOT_DEFAULT: BarredNames = BarredNames {
    names: &[DEFAULT_PROFILE],
};

const ANY_NAME: BarredNames = BarredNames { names: &[] };

/// The name of the section that lists the modes.
pub const MODES_NAME: &[u8] = b"modes";

/// The name of the section [`MODE`].
pub const MODE_NAME: &[u8] = b"mode";

/// The name of the section [`MACHINE`].
pub const MACHINE_SECTION_NAME: &[u8] = b"machine";

/// The name of the section [`GAME`].
pub const GAME_NAME: &[u8] = b"game";

/// The two kinds of texts.
#[derive(Clone, Copy)]
pub enum TextKind {
    /// The text of the machine.
    Machine,
    /// The text of a mode.
    Mode,
}

// How a section of ball saves or multiballs is written.
fn save_shape(section: &[u8]) -> Option<Shape>
    ensures { give shape_view result ≡ named_in section.now save_shapes }
{
    if section == BALL_SAVES_NAME {
        return Some(Shape::Entries(NOT_A_DEVICE, BALL_SAVES));
    }
    if section == MULTIBALLS_NAME {
        return Some(Shape::Entries(NOT_A_DEVICE, MULTIBALLS));
    }
    None
}

// How a section of shots, or of what saves and adds balls, is written.
fn shot_shape(section: &[u8]) -> Option<Shape>
    ensures { give shape_view result ≡ named_in section.now shot_shapes }
{
    if section == SHOTS_NAME {
        return Some(Shape::Entries(NOT_A_DEVICE, SHOTS));
    }
    if section == SHOT_GROUPS_NAME {
        return Some(Shape::Entries(NOT_A_DEVICE, SHOT_GROUPS));
    }
    if section == SHOT_PROFILES_NAME {
        return Some(Shape::Entries(NOT_DEFAULT, SHOT_PROFILES));
    }
    save_shape(section)
}

// How a section of logic blocks, or of shots and the like, is written.
fn block_shape(section: &[u8]) -> Option<Shape>
    ensures { give shape_view result ≡ named_in section.now block_shapes }
{
    if section == COUNTERS_NAME {
        return Some(Shape::Entries(NOT_A_DEVICE, COUNTERS));
    }
    if section == ACCRUALS_NAME {
        return Some(Shape::Entries(NOT_A_DEVICE, STEP_BLOCKS));
    }
    if section == SEQUENCES_NAME {
        return Some(Shape::Entries(NOT_A_DEVICE, STEP_BLOCKS));
    }
    shot_shape(section)
}

// How a section is written that texts of both kinds have.
fn shared_shape(section: &[u8]) -> Option<Shape>
    ensures { give shape_view result ≡ named_in section.now shared_shapes }
{
    if section == EVENT_PLAYER_NAME {
        return Some(Shape::Players(EVENT_PLAYER));
    }
    if section == VARIABLE_PLAYER_NAME {
        return Some(Shape::Players(VARIABLE_PLAYER));
    }
    if section == COIL_PLAYER_NAME {
        return Some(Shape::Players(COIL_PLAYER));
    }
    block_shape(section)
}

// How a section is written that the machine text alone has for its devices, or that texts of both
// kinds have.
fn device_shape(section: &[u8]) -> Option<Shape>
    ensures { give shape_view result ≡ named_in section.now device_shapes }
{
    if section == FLIPPERS_NAME {
        return Some(Shape::Entries(NOT_A_DEVICE, FLIPPERS));
    }
    if section == AUTOFIRE_COILS_NAME {
        return Some(Shape::Entries(NOT_A_DEVICE, AUTOFIRE_COILS));
    }
    if section == BALL_DEVICES_NAME {
        return Some(Shape::Entries(NOT_A_DEVICE, BALL_DEVICES));
    }
    shared_shape(section)
}

// How a section of the machine text is written.
fn machine_shape(section: &[u8]) -> Option<Shape>
    ensures { give shape_view result ≡ shape_of Machine section.now }
{
    if section == MODES_NAME {
        return Some(Shape::Names);
    }
    if section == MACHINE_SECTION_NAME {
        return Some(Shape::Entry(MACHINE));
    }
    if section == GAME_NAME {
        return Some(Shape::Entry(GAME));
    }
    if section == SWITCHES_NAME {
        return Some(Shape::Entries(ANY_NAME, SWITCHES));
    }
    if section == COILS_NAME {
        return Some(Shape::Entries(ANY_NAME, COILS));
    }
    device_shape(section)
}

// How a section of the text of a mode is written.
fn mode_shape(section: &[u8]) -> Option<Shape>
    ensures { give shape_view result ≡ shape_of Mode section.now }
{
    if section == MODE_NAME {
        return Some(Shape::Entry(MODE));
    }
    if section == TIMERS_NAME {
        return Some(Shape::Entries(NOT_A_DEVICE, TIMERS));
    }
    shared_shape(section)
}

/// How a section of this name is written in a text of this kind; none if such a text has no such
/// section.
pub fn shape_of(text: TextKind, section: &[u8]) -> Option<Shape>
    ensures { give shape_view result ≡ shape_of text section.now }
{
    match text {
        TextKind::Machine => machine_shape(section),
        TextKind::Mode => mode_shape(section),
    }
}

/// The law of tables: no table has a key twice, each default is of the kind of its setting, and the
/// place of a short form is within its table.
///
/// It does nothing: its contract is the law, over the sections of all texts.
pub fn tables_are_right()
    ensures { (text : Text) (section : List ℕ) (shape : SectionShape) → shape_of text section ≡ Some shape
        → IsRight shape }
{}
