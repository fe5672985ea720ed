//! Ball devices: by their table, and in bundles by the names of their settings.

use crate::pen::Pen;
use mpf_config::Section;
use mpf_sections::{BallDeviceEntry, as_ball_device};
use mpf_tables::tables::BALL_DEVICES_NAME;

/// Texts with one section, and its entries or their fault.
pub(crate) const SECTIONS: &str = "\
ball_devices:¶ => ;
ball_devices:¶  d:¶    ball_switches: s¶ => d@2:  s@3 | - | playfield@0 | 10000ms | 500ms | 500ms | false | 0 | ;
ball_devices:¶  d:¶    tags: trough, home drain¶    max_eject_attempts: 1000¶    mechanical_eject: yes¶    exit_count_delay: 1¶    entrance_count_delay: 2s¶    eject_timeouts: 10 s¶    eject_targets: e¶    eject_coil: c¶    ball_switches:¶      - a¶      - b¶ => d@2:  a@12 b@13 | c@10 | e@9 | 10000ms | 2000ms | 1ms | true | 1000 |  trough@3 home@3 drain@3;
ball_devices:¶  d:¶    ball_switches:¶    eject_targets: playfield¶    eject_timeouts: 4294967295¶    entrance_count_delay: 4294967295ms¶    exit_count_delay: 1d¶ => d@2:  | - | playfield@4 | 4294967295ms | 4294967295ms | 86400000ms | false | 0 | ;
ball_devices:¶  d:¶    ball_switches: []¶    max_eject_attempts: 0¶    mechanical_eject: No¶    tags:¶  default:¶    ball_switches: a a¶    number: 1¶    label: [b]¶ => d@2:  | - | playfield@0 | 10000ms | 500ms | 500ms | false | 0 | ; default@7:  a@8 a@8 | - | playfield@0 | 10000ms | 500ms | 500ms | false | 0 | ;
ball_devices:¶  d:¶    ball_switches: «16 s№ »¶ => d@2: «16  s№@3» | - | playfield@0 | 10000ms | 500ms | 500ms | false | 0 | ;
ball_devices:¶  d:¶    ball_switches: «17 s№ »¶ => BadValue 3 ball_switches
ball_devices:¶  d:¶    ball_switches: [«16 s№, »\"\"]¶ => d@2: «16  s№@3» | - | playfield@0 | 10000ms | 500ms | 500ms | false | 0 | ;
ball_devices:¶  d:¶    ball_switches: [«17 s№, »]¶ => BadValue 3 ball_switches
ball_devices:¶  d:¶    ball_switches: [«1025 s№, »]¶ => Limit 3 ball_switches
ball_devices:¶  d:¶    ball_switches: a, b/¶ => BadValue 3 ball_switches
ball_devices:¶  d:¶    ball_switches: {a: b}¶ => BadValue 3 ball_switches
ball_devices:¶  d:¶ => Missing 2 ball_switches
ball_devices:¶  d:¶    eject_coil: c¶  e:¶    ball_switches: a¶ => Missing 2 ball_switches
ball_devices:¶  d:¶    eject_coil:¶ => BadValue 3 eject_coil
ball_devices:¶  d:¶    eject_coil: [c]¶ => BadValue 3 eject_coil
ball_devices:¶  d:¶    eject_coil: c, b¶ => BadValue 3 eject_coil
ball_devices:¶  d:¶    eject_targets:¶ => BadValue 3 eject_targets
ball_devices:¶  d:¶    eject_targets: [e]¶ => BadValue 3 eject_targets
ball_devices:¶  d:¶    eject_targets: e, f¶ => BadValue 3 eject_targets
ball_devices:¶  d:¶    eject_timeouts:¶ => BadValue 3 eject_timeouts
ball_devices:¶  d:¶    eject_timeouts: [10s]¶ => BadValue 3 eject_timeouts
ball_devices:¶  d:¶    eject_timeouts: 10s, 10s¶ => BadValue 3 eject_timeouts
ball_devices:¶  d:¶    eject_timeouts: 0¶ => BadValue 3 eject_timeouts
ball_devices:¶  d:¶    eject_timeouts: 4294967296¶ => BadValue 3 eject_timeouts
ball_devices:¶  d:¶    entrance_count_delay: 0s¶ => BadValue 3 entrance_count_delay
ball_devices:¶  d:¶    entrance_count_delay: 4294967296¶ => BadValue 3 entrance_count_delay
ball_devices:¶  d:¶    exit_count_delay: 0¶ => BadValue 3 exit_count_delay
ball_devices:¶  d:¶    exit_count_delay: 50d¶ => BadValue 3 exit_count_delay
ball_devices:¶  d:¶    mechanical_eject: 1¶ => BadValue 3 mechanical_eject
ball_devices:¶  d:¶    max_eject_attempts: -1¶ => BadValue 3 max_eject_attempts
ball_devices:¶  d:¶    max_eject_attempts: 1001¶ => BadValue 3 max_eject_attempts
ball_devices:¶  d:¶    max_eject_attempts: 1.5¶ => BadValue 3 max_eject_attempts
ball_devices:¶  d:¶    max_eject_attempts:¶ => BadValue 3 max_eject_attempts
ball_devices:¶  d:¶    tags: a/¶ => BadValue 3 tags
ball_devices:¶  d:¶    tags: [«1025 a, »]¶ => Limit 3 tags
ball_devices:¶  d:¶    entrance_switch: a¶ => UnknownSetting 3 entrance_switch
ball_devices:¶  d:¶    eject_target: e¶ => UnknownSetting 3 eject_target
ball_devices:¶  d: a¶ => BadValue 2 d
ball_devices:¶  a b:¶ => BadValue 2 a b
ball_devices: [d]¶ => BadValue 1 ball_devices
ball_devices:¶  playfield:¶ => BadValue 2 playfield
ball_devices:¶  d:¶    ball_switches: a¶  playfield:¶    ball_switches: b¶ => BadValue 4 playfield
ball_device:¶ => no section
";

/// Texts, and what is read of them. A ball device is shown by its name; its ball switches; its coil and its target; how
/// many milliseconds an attempt lasts, and those before a ball counts and before it is gone; whether a ball may leave
/// by itself, and how many attempts there are; its tags; and whether it is a trough, a home of balls and a drain.
pub(crate) const BALLS: &str = "\
@¶ball_devices:¶  d:¶    ball_switches: a, b¶ => ball_devices¶ d@3; a@4 b@4; - playfield@0; 10000 500 500; false 0;; false false false¶
@¶ball_devices:¶  t:¶    ball_switches: [a]¶    tags: trough, drain¶    eject_coil: c¶    eject_targets: p¶    eject_timeouts: 1¶    entrance_count_delay: 2¶    exit_count_delay: 3¶    max_eject_attempts: 4¶  p:¶    ball_switches:¶    mechanical_eject: on¶    tags:¶      - home¶ => ball_devices¶ t@3; a@4; c@6 p@7; 1 2 3; false 4; trough@5 drain@5; true true true¶ p@12;; - playfield@0; 10000 500 500; true 0; home@16; false true false¶
@¶ball_devices:¶  d: {ball_switches: [«16 s№, »], max_eject_attempts: 1000, tags: [drain, Trough, homes]}¶  e: {ball_switches: a, eject_timeouts: 4294967295, tags: a}¶ => ball_devices¶ d@3;«16  s№@3»; - playfield@0; 10000 500 500; false 1000; drain@3 Trough@3 homes@3; false false true¶ e@4; a@4; - playfield@0; 4294967295 500 500; false 0; a@4; false false false¶
@¶ball_devices:¶  d:¶    eject_targets: playfield¶    ball_switches: d¶flippers:¶  d: {main_coil: m, activation_switch: d}¶ => ball_devices¶ d@3; d@5; - playfield@4; 10000 500 500; false 0;; false false false¶flippers¶ d@7; m@7 - d@7; ball_started@0; ball_will_end@0;¶
@¶ball_devices:¶  playfield: {ball_switches: a}¶ => error 6 BadValue config/config.yaml 3 playfield¶
@¶ball_devices:¶  d:¶    eject_coil: c¶ => error 7 Missing config/config.yaml 3 ball_switches¶
@¶ball_devices:¶  d: {ball_switches: «17 s№ »}¶ => error 6 BadValue config/config.yaml 3 ball_switches¶
@¶ball_devices:¶  d:¶  d:¶ => error 3 Yaml config/config.yaml 4 DuplicateKey¶
@¶modes: m¶@m¶ball_devices:¶ => error 4 UnknownSection modes/m/config/m.yaml 2 ball_devices¶
";

fn show_ball_device(pen: &mut Pen, device: BallDeviceEntry<'_>) {
    pen.entry(device.name);
    pen.listed(device.switches);
    pen.name_at(device.eject_coil);
    pen.name_at(Some(device.target));
    pen.put(";");
    pen.also(device.ejects.timeout);
    pen.also(device.ejects.entrance_delay);
    pen.also(device.ejects.exit_delay);
    pen.put(";");
    pen.also(device.ejects.mechanical);
    pen.also(device.ejects.max_attempts.unwrap_or(0));
    pen.put(";");
    pen.listed(device.tags);
    pen.also(device.is_trough());
    pen.also(device.is_home());
    pen.also(device.is_drain());
    pen.put("\n");
}

/// Adds the ball devices of a section.
pub(crate) fn show_ball_devices(pen: &mut Pen, section: &Section) {
    for entry in section.entries_of(BALL_DEVICES_NAME) {
        show_ball_device(pen, as_ball_device(entry));
    }
}
