//! Entries and players that are read by tables.

use crate::cases::{Subject, assert_rows};
use crate::pen::Pen;
use crate::yaml::tree_of;
use crate::{balls, saves, shots};
use config_faults::ConfigFault;
use mpf_sections::as_handled;
use mpf_tables::{TextKind, shape_of};
use section_tables::rows::{Entry, PlayerEntry};
use section_tables::table::{BarredNames, PlayerKinds, Setting, Shape, Without};
use section_tables::{entries, entry, name_list, players};
use setting_values::kinds::{Absent, Bounds, Field, Kind, Others, Scalar};
use setting_values::values::{Fields, KeyedValues, Plain, Value};
use yaml_subset::{Key, Tree};

macro_rules! setting {
    ($key:expr, $kind:expr, $without:expr) => {
        Setting {
            key: $key,
            kind: $kind,
            without: $without,
        }
    };
}

macro_rules! field {
    ($key:expr, $kind:expr, $absent:expr) => {
        Field {
            key: $key,
            kind: $kind,
            absent: $absent,
        }
    };
}

const NOTHING: Without = Without::One(Absent::Nothing);

const REQUIRED: Without = Without::One(Absent::Required);

const ANY: Bounds = Bounds::AtLeast(0);

// A map in a list.
const STATE: &[Field] = &[
    field!(b"name", Scalar::Name, Absent::Required),
    field!(b"power", Scalar::Power, Absent::Nothing),
    field!(b"count", Scalar::Number(0, 9), Absent::Number(4)),
    field!(b"to", Scalar::Name, Absent::Name(b"playfield")),
];

// A map that belongs to a name.
const ACTION: &[Field] = &[
    field!(
        b"action",
        Scalar::Word(&[b"pulse", b"enable"]),
        Absent::Required
    ),
    field!(b"for", Scalar::Time(1, 5000), Absent::Time(7)),
];

const KEYED: Kind = Kind::Keyed(ACTION, 0, Scalar::Word(&[b"pulse", b"enable"]));

// A setting of each kind.
const SETTINGS: &[Setting] = &[
    setting!(
        b"flag",
        Kind::One(Scalar::Flag),
        Without::One(Absent::Flag(true))
    ),
    setting!(
        b"number",
        Kind::One(Scalar::Number(-1, 99)),
        Without::One(Absent::Number(3))
    ),
    setting!(
        b"pulse",
        Kind::One(Scalar::Time(1, 5000)),
        Without::One(Absent::Time(10))
    ),
    setting!(
        b"power",
        Kind::One(Scalar::Power),
        Without::One(Absent::Power(1000))
    ),
    setting!(
        b"word",
        Kind::One(Scalar::Word(&[b"up", b"down"])),
        Without::One(Absent::Word(b"up"))
    ),
    setting!(
        b"name",
        Kind::One(Scalar::Name),
        Without::One(Absent::Name(b"default"))
    ),
    setting!(b"event", Kind::One(Scalar::Event), NOTHING),
    setting!(
        b"names",
        Kind::Names(Bounds::Between(1, 16)),
        Without::NoNames
    ),
    setting!(b"posts", Kind::Posts(ANY), Without::NoPosts),
    setting!(
        b"events",
        Kind::Events(ANY),
        Without::Event(b"ball_started")
    ),
    setting!(b"steps", Kind::Steps(Bounds::Between(1, 16)), NOTHING),
    setting!(
        b"maps",
        Kind::Maps(STATE, Others::Refused, Bounds::AtLeast(1)),
        Without::NoMaps
    ),
    setting!(b"open", Kind::Maps(STATE, Others::Ignored, ANY), NOTHING),
    setting!(b"keyed", KEYED, NOTHING),
];

// Three settings that have to be written.
const NEEDS: &[Setting] = &[
    setting!(b"coil", Kind::One(Scalar::Name), REQUIRED),
    setting!(b"events", Kind::Events(ANY), REQUIRED),
    setting!(b"steps", Kind::Steps(Bounds::Between(1, 16)), REQUIRED),
    setting!(b"open", Kind::Maps(STATE, Others::Ignored, ANY), NOTHING),
];

// Maps of which each has a name of its own.
const OWN_NAMES: &[Setting] = &[setting!(
    b"states",
    Kind::NamedMaps(STATE, Others::Ignored, Bounds::Between(1, 3)),
    REQUIRED
)];

// A player whose keys are handled events.
const PLAYER: PlayerKinds = PlayerKinds {
    key: Scalar::Event,
    value: KEYED,
};

// Entries and their values, then entries and their faults.
const ENTRIES: &str = "\
e:¶  number: 1 => e@1: true | 1 | 10ms | 1000 | up | default@0 | - |  |  |  ball_started@0 | - |  | - | -
e:¶  x: {a: b}¶  tags: /¶  label:¶  debug: [a]¶  platform: 1¶  platform_settings: 1¶  console_log: 1¶  file_log: 1¶  y: 1¶  z: 1 => e@1: true | 3 | 10ms | 1000 | up | default@0 | - |  |  |  ball_started@0 | - |  | - | -
e:¶  flag: no¶  pulse: 5s¶  power: 25%¶  word: down¶  name: c_x¶  event: go => e@1: false | 3 | 5000ms | 250 | down | c_x@6 | go@7 |  |  |  ball_started@0 | - |  | - | -
e:¶  number: -1¶  pulse: 1¶  event: go{ current_player.a-b <= -7 }¶  names: a, b => e@1: true | -1 | 1ms | 1000 | up | default@0 | go{a-b LessOrEqual -7}@4 |  a@5 b@5 |  |  ball_started@0 | - |  | - | -
e:¶  posts:¶    - a¶    - \"\"¶    - b¶  events: c{current_player.x==1}, d => e@1: true | 3 | 10ms | 1000 | up | default@0 | - |  |  a@3 b@5 |  c{x Equal 1}@6 d@6 | - |  | - | -
e:¶  events:¶  steps:¶    - a, b¶    - c¶    - [d, e] => e@1: true | 3 | 10ms | 1000 | up | default@0 | - |  |  |  | [ a@4 b@4][ c@5][ d@6 e@6] |  | - | -
e:¶  maps:¶    - name: a¶    - {count: 0, to: b, name: c, power: 0.5} => e@1: true | 3 | 10ms | 1000 | up | default@0 | - |  |  |  ball_started@0 | - | {a@3, -, 4, playfield@0}@3{c@4, 500, 0, b@4}@4 | - | -
e:¶  open:¶    - {name: a, other: [b]} => e@1: true | 3 | 10ms | 1000 | up | default@0 | - |  |  |  ball_started@0 | - |  | {a@3, -, 4, playfield@0}@3 | -
e:¶  keyed:¶    c_up: enable¶    c_x: {for: 9, action: pulse} => e@1: true | 3 | 10ms | 1000 | up | default@0 | - |  |  |  ball_started@0 | - |  | - | c_up@3{enable, 7ms}c_x@4{pulse, 9ms}
e:¶  keyed:¶  open: => e@1: true | 3 | 10ms | 1000 | up | default@0 | - |  |  |  ball_started@0 | - |  |  |\u{20}
e:¶  events: a{current_player.x==1}¶  steps:¶    - b¶  keyed: {c: {action: pulse}} => e@1: true | 3 | 10ms | 1000 | up | default@0 | - |  |  |  a{x Equal 1}@2 | [ b@4] |  | - | c@5{pulse, 7ms}
e:¶  posts: [«1024 a,»] => e@1: true | 3 | 10ms | 1000 | up | default@0 | - |  | «1024  a@2» |  ball_started@0 | - |  | - | -
e:¶  flag: 1 => BadValue 2 flag
e:¶  flag: [yes] => BadValue 2 flag
e:¶  number: 100 => BadValue 2 number
e:¶  number: -2 => BadValue 2 number
e:¶  number: => BadValue 2 number
e:¶  pulse: 0 => BadValue 2 pulse
e:¶  pulse: 5001 => BadValue 2 pulse
e:¶  power: 101% => BadValue 2 power
e:¶  word: Up => BadValue 2 word
e:¶  word: {a: b} => BadValue 2 word
e:¶  name: a b => BadValue 2 name
e:¶  name: => BadValue 2 name
e:¶  event: go {current_player.a==1} => BadValue 2 event
e:¶  names: => BadValue 2 names
e:¶  names: a, b/ => BadValue 2 names
e:¶  names: {a: b} => BadValue 2 names
e:¶  names: 1 2 3 4 5 6 7 8 9 10 11 12 13 14 15 16 17 => BadValue 2 names
e:¶  posts:¶    a, b{current_player.x==1} => BadValue 2 posts
e:¶  events: a, b{x==1} => BadValue 2 events
e:¶  steps: => BadValue 2 steps
e:¶  steps: a => BadValue 2 steps
e:¶  steps:¶    - a¶    - => BadValue 2 steps
e:¶  steps:¶    - a¶    - {b: c} => BadValue 2 steps
e:¶  steps:¶    - a¶    - c{current_player.x!=0} => e@1: true | 3 | 10ms | 1000 | up | default@0 | - |  |  |  ball_started@0 | [ a@3][ c{x NotEqual 0}@4] |  | - | -
e:¶  steps:¶    - a{ current_player.x < 1 }, b c{current_player.y>=-2}¶    - [\"d{current_player.z == 3}\"] => e@1: true | 3 | 10ms | 1000 | up | default@0 | - |  |  |  ball_started@0 | [ a{x Less 1}@3 b@3 c{y GreaterOrEqual -2}@3][ d{z Equal 3}@4] |  | - | -
e:¶  steps:¶    - a¶    - c{x!=0} => BadValue 2 steps
e:¶  steps:¶    - a¶    - c {current_player.x!=0} => BadValue 2 steps
e:¶  steps:¶    - a{current_player.x!=0 => BadValue 2 steps
e:¶  steps:¶    - [a, «1024 b, »] => Limit 2 steps
e:¶  steps: [1, 2, 3, 4, 5, 6, 7, 8, 9, 10, 11, 12, 13, 14, 15, 16, 17] => BadValue 2 steps
e:¶  maps: => BadValue 2 maps
e:¶  maps: a => BadValue 2 maps
e:¶  maps:¶    - a => BadValue 2 maps
e:¶  maps:¶    - name: a¶    - count: 1¶      power: 0 => Missing 4 name
e:¶  maps:¶    - name: a¶      number: 1 => UnknownSetting 4 number
e:¶  maps:¶    - count: 10¶      other: 1 => BadValue 3 count
e:¶  open:¶    - {other: b} => Missing 3 name
e:¶  keyed: a => BadValue 2 keyed
e:¶  keyed:¶    c_up: => BadValue 3 c_up
e:¶  keyed:¶    c_up: stop => BadValue 3 c_up
e:¶  keyed:¶    c_up: {for: 1} => Missing 3 action
e:¶  keyed:¶    c_up: {for: 0} => BadValue 3 for
e:¶  keyed:¶    c_up: {x: 1} => UnknownSetting 3 x
e:¶  keyed:¶    c_up: [] => BadValue 3 c_up
e:¶  keyed:¶    a b: pulse => BadValue 3 a b
e:¶  flag: no¶  other: 1¶  word: left => UnknownSetting 3 other
e:¶  word: left¶  other: 1 => BadValue 2 word
e:¶  posts: [«1025 a,»] => Limit 2 posts
e:¶  names: [«1025 a/,»] => Limit 2 names
e:¶  steps: [«1025 a,»] => Limit 2 steps
e:¶  maps: [«1025 a,»] => Limit 2 maps
e:¶  keyed: {«1025 a№: pulse, »} => Limit 2 keyed
e:¶  posts: [«1024 a,»{b: c}] => Limit 2 posts
e:¶  events: [[a], «1024 a,»\"\"] => Limit 2 events
e:¶  posts: [«1023 a,»{b: c}, \"\"] => BadValue 2 posts
";

// Entries in which three settings have to be written, and their faults.
const NEEDED: &str = "\
e:¶  number: 1 => Missing 1 coil
e:¶  coil: a => Missing 1 events
e:¶  steps: [a]¶  events:¶  x: 1 => Missing 1 coil
e:¶  steps: [a]¶  coil: b => Missing 1 events
e:¶  events: a¶  coil: b¶  tags: c => Missing 1 steps
e:¶  open: [a] => BadValue 2 open
e:¶  pulse: 1 => UnknownSetting 2 pulse
";

// Entries in which maps have names of their own, and their values or their faults.
const NAMED: &str = "\
e:¶  states:¶    - name: a¶    - name: b¶      shown: [c] => e@1: {a@3, -, 4, playfield@0}@3{b@4, -, 4, playfield@0}@4
e:¶  states: [{name: a, to: b}, {to: b, name: b}, {name: A}] => e@1: {a@2, -, 4, b@2}@2{b@2, -, 4, b@2}@2{A@2, -, 4, playfield@0}@2
e:¶  states: [{name: a}, {name: a}] => BadValue 2 states
e:¶  states:¶    - name: a¶    - name: b¶    - count: 1¶      name: \"a\" => BadValue 2 states
e:¶  states:¶    - name: a¶    - name: a¶    - count: 1 => Missing 5 name
e:¶  states:¶    - name: a¶    - name: a¶      count: 10 => BadValue 5 count
e:¶  states:¶    - name: a b => BadValue 3 name
e:¶  states: [{name: a}, {name: b}, {name: c}, {name: d}] => BadValue 2 states
e:¶  states: [{name: a}, b] => BadValue 2 states
e:¶  states: => BadValue 2 states
e:¶  states: {name: a} => BadValue 2 states
e:¶  states: [«1025 {name: a}, »] => Limit 2 states
e:¶  number: 1 => Missing 1 states
";

// Texts whose one section is a player, and its entries or their fault.
const PLAYERS: &str = "\
p:¶  go{current_player.a>1}: {c: pulse}¶  halt:¶ => go{a Greater 1}@2: c@2{pulse, 7ms}; halt@3: ;
p:¶ =>\u{20}
p: a¶ => BadValue 1 p
p:¶  go{a}: {c: pulse}¶ => BadValue 2 go{a}
p:¶  go: {c: stop}¶ => BadValue 2 c
p:¶  go: a¶ => BadValue 2 go
";

// Texts with one section that a machine has, and its entries or their fault.
const SECTIONS: &str = "\
switches:¶  a:¶  b:¶    debounce: quick¶    tags: c d¶    type: NC¶ => a@2: NO | auto |  |  | ; b@3: NC | quick |  c@5 d@5 |  | ;
switches:¶  a:¶    events_when_deactivated: b¶    events_when_activated: [c]¶ => a@2: NO | auto |  |  c@4 |  b@3;
switches:¶  a:¶    debounce: normal¶    number: 1¶ => a@2: NO | normal |  |  | ;
switches:¶  a:¶    debounce: slow¶ => BadValue 3 debounce
switches:¶  a:¶    type: no¶ => BadValue 3 type
switches:¶  a:¶    coil: b¶ => UnknownSetting 3 coil
switches:¶  a b:¶ => BadValue 2 a b
switches:¶  a: b¶ => BadValue 2 a
event_player:¶  a: b, c¶  d:¶ => a@2:  b@2 c@2; d@3: ;
event_player:¶  a{current_player.x==1}: b¶  a{ current_player.x != -1 }: c¶  a:¶ => a{x Equal 1}@2:  b@2; a{x NotEqual -1}@3:  c@3; a@4: ;
event_player:¶  a{x==1}: b¶ => BadValue 2 a{x==1}
event_player:¶  a {current_player.x==1}: b¶ => BadValue 2 a {current_player.x==1}
event_player:¶  a, b: c¶ => BadValue 2 a, b
event_player:¶  a: b{current_player.x==1}¶ => BadValue 2 a
modes:¶ =>\u{20}
modes: b, a a¶ =>  b@1 a@1 a@1
modes:¶  - a¶¶  - \"\"¶  - b¶ =>  a@2 b@5
modes: [«65 m№, »]¶ => «65  m№@1»
modes: a/b¶ => BadValue 1 modes
modes:¶  - a¶  - b c¶ => BadValue 1 modes
modes: {a: b}¶ => BadValue 1 modes
modes: [«1025 a/, »]¶ => Limit 1 modes
modes: [«1024 a, »]¶ => «1024  a@1»
counters:¶  c:¶    count_events: a, b¶ => c@2:  a@3 b@3 | 0 | 1 | - | up | 0ms | true | true | false |  |  |  |  |  | ;
counters:¶  c:¶    count_events:¶    tags: d¶    starting_count: -1000000000¶    count_interval: 1000000¶    count_complete_value: 1000000000¶    direction: down¶    multiple_hit_window: 2s¶ => c@2:  | -1000000000 | 1000000 | 1000000000 | down | 2000ms | true | true | false |  |  |  |  |  | ;
counters:¶  c:¶    reset_on_complete: no¶    disable_on_complete: no¶    persist_state: yes¶    enable_events: a¶    disable_events: b¶    reset_events: c¶    restart_events: d, e¶    events_when_hit: f¶    events_when_complete: g h¶    count_events: i¶ => c@2:  i@12 | 0 | 1 | - | up | 0ms | false | false | true |  a@6 |  b@7 |  c@8 |  d@9 e@9 |  f@10 |  g@11 h@11;
counters:¶  c:¶ => Missing 2 count_events
counters:¶  c:¶    direction: up¶  d:¶    count_events: a¶ => Missing 2 count_events
counters:¶  c:¶    count_events: a{current_player.x==1}, a¶ => c@2:  a{x Equal 1}@3 a@3 | 0 | 1 | - | up | 0ms | true | true | false |  |  |  |  |  | ;
counters:¶  c:¶    count_events:¶      - a{current_player.x!=1}¶      - b{ current_player.y-2 < -1000000000 } ¶    enable_events: c{current_player.x<=1}¶    disable_events: d{current_player.x>1}¶    reset_events: e{current_player.x>=1}¶    restart_events: f{current_player.x==0}, g¶ => c@2:  a{x NotEqual 1}@4 b{y-2 Less -1000000000}@5 | 0 | 1 | - | up | 0ms | true | true | false |  c{x LessOrEqual 1}@6 |  d{x Greater 1}@7 |  e{x GreaterOrEqual 1}@8 |  f{x Equal 0}@9 g@9 |  | ;
counters:¶  c:¶    count_events: a{current_player.x==1000000001}¶ => BadValue 3 count_events
counters:¶  c:¶    count_events: a{current_player.x=1}¶ => BadValue 3 count_events
counters:¶  c:¶    count_interval: 0¶ => BadValue 3 count_interval
counters:¶  c:¶    count_interval: 1000001¶ => BadValue 3 count_interval
counters:¶  c:¶    starting_count: 1000000001¶ => BadValue 3 starting_count
counters:¶  c:¶    count_complete_value:¶ => BadValue 3 count_complete_value
counters:¶  c:¶    direction: left¶ => BadValue 3 direction
counters:¶  c:¶    multiple_hit_window: -1¶ => BadValue 3 multiple_hit_window
counters:¶  c:¶    events_when_hit: a{current_player.x==1}¶ => BadValue 3 events_when_hit
counters:¶  c:¶    enable_events: a/¶ => BadValue 3 enable_events
counters:¶  c:¶    count_event: a¶ => UnknownSetting 3 count_event
counters:¶  c:¶    count_events: [«1025 a, »]¶ => Limit 3 count_events
counters:¶  c:¶    count_events: a¶  playfield:¶    count_events: a¶ => BadValue 4 playfield
counters:¶  playfield:¶    direction: left¶ => BadValue 2 playfield
counters:¶  c:¶    direction: left¶  playfield:¶ => BadValue 3 direction
accruals:¶  q:¶    events:¶      - a, b¶      - [c]¶ => q@2: [ a@4 b@4][ c@5] | true | true | false |  |  |  |  |  | ;
accruals:¶  q:¶    events:¶  r:¶    events: []¶    events_when_hit:¶ => q@2:  | true | true | false |  |  |  |  |  | ; r@4:  | true | true | false |  |  |  |  |  | ;
accruals:¶  q:¶    events: [1, 2, 3, 4, 5, 6, 7, 8, 9, 10, 11, 12, 13, 14, 15, 16]¶ => q@2: [ 1@3][ 2@3][ 3@3][ 4@3][ 5@3][ 6@3][ 7@3][ 8@3][ 9@3][ 10@3][ 11@3][ 12@3][ 13@3][ 14@3][ 15@3][ 16@3] | true | true | false |  |  |  |  |  | ;
accruals:¶  q:¶    events: [1, 2, 3, 4, 5, 6, 7, 8, 9, 10, 11, 12, 13, 14, 15, 16, 17]¶ => BadValue 3 events
accruals:¶  q:¶    events: a¶ => BadValue 3 events
accruals:¶  q:¶    events:¶      - a¶      -¶ => BadValue 3 events
accruals:¶  q:¶    events:¶      - a{current_player.x==1}, b¶      - b{ current_player.y <= 2 }¶ => q@2: [ a{x Equal 1}@4 b@4][ b{y LessOrEqual 2}@5] | true | true | false |  |  |  |  |  | ;
accruals:¶  q:¶    events:¶      - a¶      - b{player.y==2}¶ => BadValue 3 events
accruals:¶  q:¶ => Missing 2 events
accruals:¶  q:¶    count_events: a¶ => UnknownSetting 3 count_events
accruals:¶  playfield:¶    events:¶ => BadValue 2 playfield
sequences:¶  q:¶    persist_state: yes¶    events:¶      - a¶ => q@2: [ a@5] | true | true | true |  |  |  |  |  | ;
sequences:¶  q:¶ => Missing 2 events
sequences:¶  playfield:¶ => BadValue 2 playfield
coils:¶  c:¶ => c@2: 10ms | - | 1000 | 1000 | false | - | -;
coils:¶  c:¶    max_hold_power: 1¶    default_hold_power: 0%¶    allow_enable: yes¶    max_pulse_power: 0.125¶    default_pulse_power: 12.5%¶    max_pulse_ms: 1¶    default_pulse_ms: 5s¶ => c@2: 5000ms | 1ms | 125 | 125 | true | 0 | 1000;
coils:¶  playfield:¶    number: 1¶    tags: a/¶  d:¶    default_pulse_ms: 20ms¶    max_pulse_ms: 5000¶ => playfield@2: 10ms | - | 1000 | 1000 | false | - | -; d@5: 20ms | 5000ms | 1000 | 1000 | false | - | -;
coils:¶  c:¶    default_pulse_ms: 0¶ => BadValue 3 default_pulse_ms
coils:¶  c:¶    default_pulse_ms: 5001¶ => BadValue 3 default_pulse_ms
coils:¶  c:¶    max_pulse_ms: 0¶ => BadValue 3 max_pulse_ms
coils:¶  c:¶    max_pulse_ms: 5001¶ => BadValue 3 max_pulse_ms
coils:¶  c:¶    max_pulse_ms:¶ => BadValue 3 max_pulse_ms
coils:¶  c:¶    default_pulse_power: 1.001¶ => BadValue 3 default_pulse_power
coils:¶  c:¶    max_pulse_power: 101%¶ => BadValue 3 max_pulse_power
coils:¶  c:¶    allow_enable: 1¶ => BadValue 3 allow_enable
coils:¶  c:¶    default_hold_power:¶ => BadValue 3 default_hold_power
coils:¶  c:¶    max_hold_power: -1¶ => BadValue 3 max_hold_power
coils:¶  c:¶    pulse_events: a¶ => UnknownSetting 3 pulse_events
coils:¶  c: 10¶ => BadValue 2 c
flippers:¶  f:¶    activation_switch: s¶    main_coil: m¶ => f@2: m@4 | - | s@3 |  ball_started@0 |  ball_will_end@0;
flippers:¶  f:¶    main_coil: m¶    hold_coil: h¶    activation_switch: s¶    enable_events:¶    disable_events: a, b¶    label: c¶ => f@2: m@3 | h@4 | s@5 |  |  a@7 b@7;
flippers:¶  f:¶ => Missing 2 main_coil
flippers:¶  f:¶    main_coil: m¶    hold_coil: h¶ => Missing 2 activation_switch
flippers:¶  f:¶    activation_switch: s¶  g:¶    main_coil: m¶    activation_switch: s¶ => Missing 2 main_coil
flippers:¶  f:¶    main_coil: [m]¶ => BadValue 3 main_coil
flippers:¶  f:¶    hold_coil:¶ => BadValue 3 hold_coil
flippers:¶  f:¶    activation_switch: s, t¶ => BadValue 3 activation_switch
flippers:¶  f:¶    enable_events: a{current_player.x==1}¶    main_coil: m¶    activation_switch: s¶ => f@2: m@4 | - | s@5 |  a{x Equal 1}@3 |  ball_will_end@0;
flippers:¶  f:¶    enable_events: a{current_player.x}¶ => BadValue 3 enable_events
flippers:¶  f:¶    disable_events: [«1025 a, »]¶ => Limit 3 disable_events
flippers:¶  f:¶    switch: s¶ => UnknownSetting 3 switch
flippers:¶  playfield:¶    main_coil: m¶    activation_switch: s¶ => BadValue 2 playfield
autofire_coils:¶  a:¶    coil: c¶    switch: s¶ => a@2: c@3 | s@4 |  ball_started@0 |  ball_will_end@0;
autofire_coils:¶  a:¶    disable_events: []¶    enable_events: b c¶    switch: s¶    coil: c¶ => a@2: c@6 | s@5 |  b@4 c@4 | ;
autofire_coils:¶  a:¶    switch: s¶ => Missing 2 coil
autofire_coils:¶  a:¶    coil: c¶    debug: yes¶ => Missing 2 switch
autofire_coils:¶  a:¶    coil: c/¶ => BadValue 3 coil
autofire_coils:¶  a:¶    enable_events: {b: c}¶ => BadValue 3 enable_events
autofire_coils:¶  a:¶    disable_events: b{current_player.x==1}¶    coil: c¶    switch: s¶ => a@2: c@4 | s@5 |  ball_started@0 |  b{x Equal 1}@3;
autofire_coils:¶  a:¶    disable_events: b{}¶ => BadValue 3 disable_events
autofire_coils:¶  a:¶    enable_events: [«1025 b, »]¶ => Limit 3 enable_events
autofire_coils:¶  a:¶    hold_coil: c¶ => UnknownSetting 3 hold_coil
autofire_coils:¶  playfield:¶ => BadValue 2 playfield
coil_player:¶  go:¶    c: pulse¶    d: enable¶    playfield: disable¶  halt:¶ => go@2: c@3{pulse, -, -, -}d@4{enable, -, -, -}playfield@5{disable, -, -, -}; halt@6: ;
coil_player:¶  go:¶    c: {pulse_power: 0.5, pulse_ms: 1, action: pulse}¶    d:¶      action: enable¶      hold_power: 25%¶ => go@2: c@3{pulse, 1ms, 500, -}d@4{enable, -, -, 250};
coil_player:¶  go: {number: {action: disable, pulse_ms: 5s, pulse_power: 1, hold_power: 0}}¶ => go@2: number@2{disable, 5000ms, 1000, 0};
coil_player:¶  go: {«1024 c№: pulse, »}¶ => go@2: «1024 c№@2{pulse, -, -, -}»;
coil_player:¶  go: {«1025 c№: pulse, »}¶ => Limit 2 go
coil_player:¶  go: {«1025 c№/: hold, »}¶ => Limit 2 go
coil_player:¶  go: c¶ => BadValue 2 go
coil_player:¶  go: [c]¶ => BadValue 2 go
coil_player:¶  go{current_player.x==1}:¶    c: pulse¶ => go{x Equal 1}@2: c@3{pulse, -, -, -};
coil_player:¶  go{current_player.x==1:¶    c: pulse¶ => BadValue 2 go{current_player.x==1
variable_player:¶  go:¶    score: 500¶    bonus: {action: set, int: -3}¶  halt:¶ => go@2: score@3{500, add}bonus@4{-3, set}; halt@5: ;
variable_player:¶  go{current_player.ball==1}:¶    a: 1000000000¶    b: -1000000000¶    number:¶      int: 0¶      action: add¶ => go{ball Equal 1}@2: a@3{1000000000, add}b@4{-1000000000, add}number@5{0, add};
variable_player:¶  go: {«1024 v№: 1, »}¶ => go@2: «1024 v№@2{1, add}»;
variable_player:¶  go: {«1025 v№/: x, »}¶ => Limit 2 go
variable_player:¶ =>\u{20}
variable_player: a¶ => BadValue 1 variable_player
variable_player:¶  go: 1¶ => BadValue 2 go
variable_player:¶  go{x}: {a: 1}¶ => BadValue 2 go{x}
variable_player:¶  go:¶    a:¶ => BadValue 3 a
variable_player:¶  go:¶    a: set¶ => BadValue 3 a
variable_player:¶  go:¶    a: 1.5¶ => BadValue 3 a
variable_player:¶  go:¶    a: 1000000001¶ => BadValue 3 a
variable_player:¶  go:¶    a: [1]¶ => BadValue 3 a
variable_player:¶  go:¶    a b: 1¶ => BadValue 3 a b
variable_player:¶  go:¶    a: {action: set}¶ => Missing 3 int
variable_player:¶  go:¶    a: {}¶ => Missing 3 int
variable_player:¶  go:¶    a:¶      int: 1¶      action: reset¶ => BadValue 5 action
variable_player:¶  go:¶    a: {int: -1000000001}¶ => BadValue 3 int
variable_player:¶  go:¶    a:¶      int:¶ => BadValue 4 int
variable_player:¶  go:¶    a: {int: 1, number: 2}¶ => UnknownSetting 3 number
machine:¶ => machine@1: 1
machine:¶  number: a/¶  min_balls: 0¶ => machine@1: 0
machine:¶  min_balls: 99¶ => machine@1: 99
machine:¶  min_balls: 100¶ => BadValue 2 min_balls
machine:¶  min_balls: -1¶ => BadValue 2 min_balls
machine:¶  min_balls:¶ => BadValue 2 min_balls
machine:¶  max_balls: 1¶ => UnknownSetting 2 max_balls
machine: 1¶ => BadValue 1 machine
game:¶ => game@1: 3 | 4
game:¶  max_players: 1¶  balls_per_game: 99¶ => game@1: 99 | 1
game: {balls_per_game: 1, max_players: 4}¶ => game@1: 1 | 4
game:¶  balls_per_game: 0¶ => BadValue 2 balls_per_game
game:¶  balls_per_game: 100¶ => BadValue 2 balls_per_game
game:¶  max_players: 0¶ => BadValue 2 max_players
game:¶  max_players: 5¶ => BadValue 2 max_players
game:¶  max_players: 2.5¶ => BadValue 2 max_players
game:¶  players: 2¶ => UnknownSetting 2 players
game: [a]¶ => BadValue 1 game
coil_player:¶  go:¶    c:¶ => BadValue 3 c
coil_player:¶  go:¶    c: hold¶ => BadValue 3 c
coil_player:¶  go:¶    number: 1¶ => BadValue 3 number
coil_player:¶  go:¶    c/: pulse¶ => BadValue 3 c/
coil_player:¶  go:¶    c:¶      pulse_ms: 5¶ => Missing 3 action
coil_player:¶  go:¶    c:¶      action: hold¶ => BadValue 4 action
coil_player:¶  go:¶    c: {pulse_ms: 0}¶ => BadValue 3 pulse_ms
coil_player:¶  go:¶    c: {pulse_ms: 5001}¶ => BadValue 3 pulse_ms
coil_player:¶  go:¶    c:¶      action: pulse¶      pulse_power: 1.5¶ => BadValue 5 pulse_power
coil_player:¶  go:¶    c:¶      hold_power:¶ => BadValue 4 hold_power
coil_player:¶  go:¶    c: {action: pulse, number: 1}¶ => UnknownSetting 3 number
coil_player:¶  go:¶    c: [pulse]¶ => BadValue 3 c
timers:¶ => no section
coil:¶ => no section
mode:¶ => no section
";

// Texts with one section that a mode has, and its entries or their fault.
const MODE_SECTIONS: &str = "\
mode:¶ => mode@1:  |  | 100 | true | true | false
mode:¶  number: 1¶  tags: a/¶  priority: 0¶  game_mode: No¶ => mode@1:  |  | 0 | false | true | false
mode:¶  stop_events: a, b¶  start_events:¶    - c¶    - d¶ => mode@1:  c@4 d@5 |  a@2 b@2 | 100 | true | true | false
mode:¶  stop_on_ball_end: off¶  priority: 1000000¶ => mode@1:  |  | 1000000 | true | false | false
mode:¶  use_wait_queue: Off¶ => mode@1:  |  | 100 | true | true | false
mode:¶  use_wait_queue: yes¶ => mode@1:  |  | 100 | true | true | true
mode:¶  use_wait_queue: True¶  game_mode: no¶ => mode@1:  |  | 100 | false | true | true
mode: a¶ => BadValue 1 mode
mode: [a]¶ => BadValue 1 mode
mode:¶  priority: -1¶ => BadValue 2 priority
mode:¶  priority: 1000001¶ => BadValue 2 priority
mode:¶  priority:¶ => BadValue 2 priority
mode:¶  game_mode: 1¶ => BadValue 2 game_mode
mode:¶  use_wait_queue: oFf¶ => BadValue 2 use_wait_queue
mode:¶  use_wait_queue: 1¶ => BadValue 2 use_wait_queue
mode:¶  use_wait_queue:¶ => BadValue 2 use_wait_queue
mode:¶  start_events: a, b{current_player.x==1}¶  stop_events:¶    - c{ current_player.y > 2 }¶ => mode@1:  a@2 b{x Equal 1}@2 |  c{y Greater 2}@4 | 100 | true | true | false
mode:¶  start_events: a, b{current_player.x==1¶ => BadValue 2 start_events
mode:¶  stop_events: {a: b}¶ => BadValue 2 stop_events
mode:¶  start_events: [«1025 a, »]¶ => Limit 2 start_events
mode:¶  events_when_started: a¶ => UnknownSetting 2 events_when_started
event_player:¶  a: b, c¶  d:¶ => a@2:  b@2 c@2; d@3: ;
event_player:¶  a: b/¶ => BadValue 2 a
counters:¶  c:¶    count_events: a¶ => c@2:  a@3 | 0 | 1 | - | up | 0ms | true | true | false |  |  |  |  |  | ;
accruals:¶  q:¶ => Missing 2 events
sequences:¶  q:¶    events:¶ => q@2:  | true | true | false |  |  |  |  |  | ;
timers:¶  t:¶ => t@2: 0 | - | up | 1000ms | false | false | ;
timers:¶  t:¶    start_value: 1000000000¶    end_value: -1000000000¶    direction: down¶    tick_interval: 1¶    start_running: yes¶    restart_on_complete: yes¶ => t@2: 1000000000 | -1000000000 | down | 1ms | true | true | ;
timers:¶  t:¶    control_events:¶      - event: go¶        action: start¶      - {value: -3, action: jump, event: halt}¶ => t@2: 0 | - | up | 1000ms | false | false | {go@4, start, 0}@4{halt@6, jump, -3}@6;
timers:¶  t:¶    control_events:¶    tick_interval: 4294967295¶ => t@2: 0 | - | up | 4294967295ms | false | false | ;
timers:¶  t:¶    control_events:¶      - event: go¶ => Missing 4 action
timers:¶  t:¶    control_events:¶      - value: 1¶ => Missing 4 event
timers:¶  t:¶    control_events:¶      - event: go¶        number: 1¶ => UnknownSetting 5 number
timers:¶  t:¶    control_events:¶      - event: go{ current_player.x > 1 }¶        action: pause¶ => t@2: 0 | - | up | 1000ms | false | false | {go{x Greater 1}@4, pause, 0}@4;
timers:¶  t:¶    control_events:¶      - event: go{x>1}¶ => BadValue 4 event
timers:¶  t:¶    control_events:¶      - event: go, halt¶ => BadValue 4 event
timers:¶  t:¶    control_events:¶      - action: begin¶ => BadValue 4 action
timers:¶  t:¶    control_events:¶      - value: 1000000001¶ => BadValue 4 value
timers:¶  t:¶    control_events: [a]¶ => BadValue 3 control_events
timers:¶  t:¶    tick_interval: 0¶ => BadValue 3 tick_interval
timers:¶  t:¶    tick_interval: 4294967296¶ => BadValue 3 tick_interval
timers:¶  t:¶    end_value:¶ => BadValue 3 end_value
timers:¶  t:¶    start_value: 1.5¶ => BadValue 3 start_value
timers:¶  t:¶    enable_events: a¶ => UnknownSetting 3 enable_events
timers:¶  t:¶  playfield:¶ => BadValue 3 playfield
coil_player:¶  go:¶    c: {action: enable, hold_power: 1}¶    d: pulse¶ => go@2: c@3{enable, -, -, 1000}d@4{pulse, -, -, -};
coil_player:¶  go:¶    c: {hold_power: 1}¶ => Missing 3 action
coil_player:¶  go: {c: on}¶ => BadValue 2 c
coil_player:¶  go: {«1025 c№: enable, »}¶ => Limit 2 go
variable_player:¶  go{current_player.a<0}:¶    a: {int: 0, action: set}¶ => go{a Less 0}@2: a@3{0, set};
machine:¶ => no section
game:¶ => no section
modes: a¶ => no section
switches:¶ => no section
coils:¶ => no section
flippers:¶ => no section
autofire_coils:¶ => no section
ball_devices:¶ => no section
";

// ---- what is shown

fn show_plain(pen: &mut Pen, value: &Plain) {
    match value {
        Plain::Nothing => pen.put("-"),
        Plain::Flag(b) => pen.value(*b),
        Plain::Number(n) => pen.value(*n),
        Plain::Time(ms) => {
            pen.value(*ms);
            pen.put("ms");
        }
        Plain::Power(n) => pen.value(*n),
        Plain::Word(word) => pen.bytes(word),
        Plain::Name(name) => pen.name(name),
        Plain::DefaultName(text) => pen.at(text, 0),
        Plain::Event(handler) => pen.handled(as_handled(handler)),
    }
}

fn show_plains(pen: &mut Pen, values: &[Plain]) {
    let mut between = "{";
    for value in values {
        pen.put(between);
        show_plain(pen, value);
        between = ", ";
    }
    pen.put("}");
}

fn show_maps(pen: &mut Pen, maps: &[Fields]) {
    for map in maps {
        show_plains(pen, &map.values);
        pen.put("@");
        pen.value(map.line);
    }
}

fn show_keyed(pen: &mut Pen, keyed: &[KeyedValues]) {
    for one in keyed {
        pen.name(&one.name);
        show_plains(pen, &one.values);
    }
}

fn show_value(pen: &mut Pen, value: &Value) {
    match value {
        Value::One(value) => show_plain(pen, value),
        Value::Names(names) => pen.names(names),
        Value::Posts(posts) => pen.names(posts),
        Value::Events(handlers) => pen.handlers(handlers),
        Value::Steps(steps) => pen.steps(steps),
        Value::Maps(maps) => show_maps(pen, maps),
        Value::Keyed(keyed) => show_keyed(pen, keyed),
    }
}

/// More settings than any table has.
const MOST_SETTINGS: usize = 64;

fn show_entry(pen: &mut Pen, row: &Entry) {
    pen.name(&row.name);
    let mut between = ": ";
    for place in 0..MOST_SETTINGS {
        let Some(value) = row.value(place) else {
            return;
        };
        pen.put(between);
        show_value(pen, value);
        between = " | ";
    }
}

fn show_entries(pen: &mut Pen, rows: &[Entry]) {
    let mut between = "";
    for row in rows {
        pen.put(between);
        show_entry(pen, row);
        between = "; ";
    }
    pen.put(";");
}

fn show_players(pen: &mut Pen, rows: &[PlayerEntry]) {
    let mut between = "";
    for row in rows {
        pen.put(between);
        show_plain(pen, &row.event);
        pen.put(": ");
        show_value(pen, &row.value);
        between = "; ";
    }
    if !rows.is_empty() {
        pen.put(";");
    }
}

// Adds the kind, the line and the key of a fault.
fn show_fault(pen: &mut Pen, fault: &ConfigFault) {
    let ConfigFault::Bundle(fault) = fault else {
        return pen.lose();
    };
    pen.put(fault.kind.name());
    pen.also(fault.line);
    pen.put(" ");
    pen.bytes(&fault.key);
}

// ---- what is read

// Adds what an entry is read as by a table.
fn show_entry_by(pen: &mut Pen, table: &[Setting], pair: &(Key, Tree)) {
    match entry(pen.alloc, table, b"t", pair) {
        Ok(row) => show_entry(pen, &row),
        Err(fault) => show_fault(pen, &fault),
    }
}

fn show_entries_by(pen: &mut Pen, barred: BarredNames, table: &[Setting], pair: &(Key, Tree)) {
    match entries(pen.alloc, barred, table, b"t", pair) {
        Ok(rows) => show_entries(pen, &rows),
        Err(fault) => show_fault(pen, &fault),
    }
}

fn show_players_by(pen: &mut Pen, kinds: PlayerKinds, pair: &(Key, Tree)) {
    match players(pen.alloc, kinds, b"t", pair) {
        Ok(rows) => show_players(pen, &rows),
        Err(fault) => show_fault(pen, &fault),
    }
}

fn show_name_list(pen: &mut Pen, pair: &(Key, Tree)) {
    match name_list(pen.alloc, 1024, b"t", pair) {
        Ok(names) => pen.names(&names),
        Err(fault) => show_fault(pen, &fault),
    }
}

// Adds what a section of a text of this kind is read as, or that such a text has none of its name.
fn show_section(pen: &mut Pen, kind: TextKind, pair: &(Key, Tree)) {
    match shape_of(kind, &pair.0.text) {
        Some(Shape::Entries(barred, table)) => show_entries_by(pen, barred, table, pair),
        Some(Shape::Players(kinds)) => show_players_by(pen, kinds, pair),
        Some(Shape::Entry(table)) => show_entry_by(pen, table, pair),
        Some(Shape::Names) => show_name_list(pen, pair),
        None => pen.put("no section"),
    }
}

// Adds what a pair is read as.
fn show_read(pen: &mut Pen, subject: &Subject, pair: &(Key, Tree)) {
    match subject {
        Subject::Entry => show_entry_by(pen, SETTINGS, pair),
        Subject::Needs => show_entry_by(pen, NEEDS, pair),
        Subject::OwnNames => show_entry_by(pen, OWN_NAMES, pair),
        Subject::Players => show_players_by(pen, PLAYER, pair),
        Subject::ModeSection => show_section(pen, TextKind::Mode, pair),
        _ => show_section(pen, TextKind::Machine, pair),
    }
}

fn show_first(pen: &mut Pen, subject: &Subject, tree: &Tree) {
    match tree.as_map() {
        Some([pair, ..]) => show_read(pen, subject, pair),
        _ => pen.put("no pair"),
    }
}

/// Adds what the first pair of a text is read as, or the kind, the line and the key of its fault.
pub(crate) fn show_pair(pen: &mut Pen, subject: &Subject, text: &str) {
    if let Some(tree) = tree_of(pen, text.as_bytes()) {
        show_first(pen, subject, &tree);
    }
}

// ---- tests

#[test]
fn entries_by_tables(rt: HostRuntime) {
    assert_rows(&rt, &Subject::Entry, ENTRIES);
    assert_rows(&rt, &Subject::Needs, NEEDED);
    assert_rows(&rt, &Subject::OwnNames, NAMED);
    assert_rows(&rt, &Subject::Players, PLAYERS);
    assert_rows(&rt, &Subject::Section, SECTIONS);
    assert_rows(&rt, &Subject::ModeSection, MODE_SECTIONS);
    assert_rows(&rt, &Subject::Section, shots::SECTIONS);
    assert_rows(&rt, &Subject::ModeSection, shots::SECTIONS);
    assert_rows(&rt, &Subject::Section, balls::SECTIONS);
    assert_rows(&rt, &Subject::Section, saves::SECTIONS);
    assert_rows(&rt, &Subject::ModeSection, saves::SECTIONS);
}
