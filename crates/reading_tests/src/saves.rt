//! Ball saves and multiballs: by their tables, and in bundles by the names of their settings.

use crate::pen::Pen;
use mpf_config::{Section, as_ball_save, as_multiball};
use mpf_tables::tables::{BALL_SAVES_NAME, MULTIBALLS_NAME};

/// Texts with one section, and its entries or their fault.
pub(crate) const SECTIONS: &str = "\
ball_saves:¶ => ;
ball_saves:¶  b:¶ => b@2: 0ms | 1 |  | ;
ball_saves:¶  b:¶    active_time: 10s¶    balls_to_save: 2¶    enable_events: a, c{current_player.x==1}¶    disable_events: d¶ => b@2: 10000ms | 2 |  a@5 c{x Equal 1}@5 |  d@6;
ball_saves:¶  b:¶    disable_events:¶      - a¶      - b{ current_player.y<-2 }¶    enable_events: []¶    tags: x¶  default: {active_time: 0, balls_to_save: 99, label: y}¶ => b@2: 0ms | 1 |  |  a@4 b{y Less -2}@5; default@8: 0ms | 99 |  | ;
ball_saves:¶  b: {active_time: 1, balls_to_save: 1}¶  c: {active_time: 4294967295ms}¶ => b@2: 1ms | 1 |  | ; c@3: 4294967295ms | 1 |  | ;
ball_saves:¶  b: {enable_events: [«1024 a, »]}¶ => b@2: 0ms | 1 | «1024  a@2» | ;
ball_saves:¶  b:¶    active_time: -1¶ => BadValue 3 active_time
ball_saves:¶  b:¶    active_time: 4294967296¶ => BadValue 3 active_time
ball_saves:¶  b:¶    active_time: 50d¶ => BadValue 3 active_time
ball_saves:¶  b:¶    active_time:¶ => BadValue 3 active_time
ball_saves:¶  b:¶    active_time: [10s]¶ => BadValue 3 active_time
ball_saves:¶  b:¶    balls_to_save: 0¶ => BadValue 3 balls_to_save
ball_saves:¶  b:¶    balls_to_save: 100¶ => BadValue 3 balls_to_save
ball_saves:¶  b:¶    balls_to_save: -1¶ => BadValue 3 balls_to_save
ball_saves:¶  b:¶    balls_to_save: 1.5¶ => BadValue 3 balls_to_save
ball_saves:¶  b:¶    balls_to_save:¶ => BadValue 3 balls_to_save
ball_saves:¶  b:¶    enable_events: a/¶ => BadValue 3 enable_events
ball_saves:¶  b:¶    enable_events: a{x==1}¶ => BadValue 3 enable_events
ball_saves:¶  b:¶    enable_events: [«1025 a, »]¶ => Limit 3 enable_events
ball_saves:¶  b:¶    disable_events: {a: b}¶ => BadValue 3 disable_events
ball_saves:¶  b:¶    disable_events: [«1025 a, »]¶ => Limit 3 disable_events
ball_saves:¶  b:¶    events_when_saving: a¶ => UnknownSetting 3 events_when_saving
ball_saves:¶  b:¶    auto_launch: yes¶ => UnknownSetting 3 auto_launch
ball_saves:¶  b: a¶ => BadValue 2 b
ball_saves:¶  a b:¶ => BadValue 2 a b
ball_saves: [b]¶ => BadValue 1 ball_saves
ball_saves:¶  playfield:¶ => BadValue 2 playfield
ball_saves:¶  b:¶    balls_to_save: 0¶  playfield:¶ => BadValue 3 balls_to_save
ball_save:¶ => no section
multiballs:¶ => ;
multiballs:¶  m:¶    ball_count: 2¶ => m@2: 2 | ;
multiballs:¶  m:¶    start_events: a, b{current_player.x!=3}¶    ball_count: 99¶  default: {ball_count: 3, start_events: [], number: 1}¶ => m@2: 99 |  a@3 b{x NotEqual 3}@3; default@5: 3 | ;
multiballs:¶  m: {ball_count: 2, start_events: [«1024 a, »]}¶ => m@2: 2 | «1024  a@2»;
multiballs:¶  m:¶ => Missing 2 ball_count
multiballs:¶  m:¶    start_events: a¶  n:¶    ball_count: 2¶ => Missing 2 ball_count
multiballs:¶  m:¶    ball_count: 1¶ => BadValue 3 ball_count
multiballs:¶  m:¶    ball_count: 100¶ => BadValue 3 ball_count
multiballs:¶  m:¶    ball_count: 0¶ => BadValue 3 ball_count
multiballs:¶  m:¶    ball_count: two¶ => BadValue 3 ball_count
multiballs:¶  m:¶    ball_count:¶ => BadValue 3 ball_count
multiballs:¶  m:¶    start_events: a/¶ => BadValue 3 start_events
multiballs:¶  m:¶    start_events: [«1025 a, »]¶ => Limit 3 start_events
multiballs:¶  m:¶    stop_events: a¶ => UnknownSetting 3 stop_events
multiballs:¶  m: 2¶ => BadValue 2 m
multiballs: m¶ => BadValue 1 multiballs
multiballs:¶  playfield:¶    ball_count: 2¶ => BadValue 2 playfield
multiball:¶ => no section
";

/// Texts, and what is read of them. A ball save is shown by its name, for how many milliseconds it is active, how many
/// balls it saves, and the events that enable and disable it; a multiball by its name, how many balls are to be in
/// play, and the events that start it.
pub(crate) const SAVES: &str = "\
@¶ball_saves:¶  b:¶  c:¶    active_time: 10s¶    balls_to_save: 99¶    enable_events: ball_started, a{current_player.x>=2}¶    disable_events: d¶ => ball_saves¶ b@3; 0 1;;¶ c@4; 10000 99; ball_started@7 a{x GreaterOrEqual 2}@7; d@8¶
@¶multiballs:¶  m: {ball_count: 2}¶  n:¶    start_events: a¶    ball_count: 99¶ => multiballs¶ m@3; 2;¶ n@4; 99; a@5¶
@¶modes: m¶ball_saves:¶  b:¶multiballs:¶  b: {ball_count: 3}¶@m¶multiballs:¶  c:¶    ball_count: 4¶    start_events: e¶ball_saves:¶  c: {active_time: 1, balls_to_save: 2, enable_events: f, disable_events: [g, h]}¶ => modes¶ m@2¶ball_saves¶ b@4; 0 1;;¶multiballs¶ b@6; 3;¶m: 100 true true;;;¶multiballs¶ c@3; 4; e@5¶ball_saves¶ c@7; 1 2; f@7; g@7 h@7¶
@¶ball_saves:¶  b: {balls_to_save: 100}¶ => error 6 BadValue config/config.yaml 3 balls_to_save¶
@¶modes: m¶@m¶ball_saves:¶  playfield:¶ => error 6 BadValue modes/m/config/m.yaml 3 playfield¶
@¶modes: m¶@m¶multiballs:¶  m: {ball_count: 1}¶ => error 6 BadValue modes/m/config/m.yaml 3 ball_count¶
@¶multiballs:¶  m:¶ => error 7 Missing config/config.yaml 3 ball_count¶
@¶modes: m¶ball_saves:¶  b:¶@m¶ball_saves:¶  b:¶ => error 8 Duplicate modes/m/config/m.yaml 3 b¶
@¶modes: a, b¶@a¶multiballs:¶  m: {ball_count: 2}¶@b¶multiballs:¶  n: {ball_count: 2}¶  m: {ball_count: 2}¶ => error 8 Duplicate modes/b/config/b.yaml 4 m¶
@¶modes: m¶@m¶ball_saves:¶  b: {disable_events: [«1025 a, »]}¶ => error 9 Limit modes/m/config/m.yaml 3 disable_events¶
";

fn show_ball_saves(pen: &mut Pen, section: &Section) {
    for entry in section.entries_of(BALL_SAVES_NAME) {
        let save = as_ball_save(entry);
        pen.entry(save.name);
        pen.also(save.settings.active_time);
        pen.also(save.settings.balls);
        pen.events(save.enable_events);
        pen.events(save.disable_events);
        pen.put("\n");
    }
}

fn show_multiballs(pen: &mut Pen, section: &Section) {
    for entry in section.entries_of(MULTIBALLS_NAME) {
        let multiball = as_multiball(entry);
        pen.entry(multiball.name);
        pen.also(multiball.settings.balls);
        pen.events(multiball.start_events);
        pen.put("\n");
    }
}

/// Adds the ball saves and the multiballs of a section.
pub(crate) fn show_save_sections(pen: &mut Pen, section: &Section) {
    show_ball_saves(pen, section);
    show_multiballs(pen, section);
}
