//! Shots, groups of them and their profiles: by their tables, and in bundles by the names of their settings.

use crate::pen::Pen;
use mpf_config::{Fields, Section, as_shot, as_shot_group, as_shot_profile, as_state};
use mpf_tables::tables::{SHOT_GROUPS_NAME, SHOT_PROFILES_NAME, SHOTS_NAME};

/// Texts with one section, which a machine and a mode have, and its entries or their fault.
pub(crate) const SECTIONS: &str = "\
shots:¶ => ;
shots:¶  s:¶ => s@2: - |  | default@0 |  |  |  | ;
shots:¶  s:¶    switch: a¶    hit_events: b, c¶    profile: p¶    advance_events: d¶    reset_events: e¶    enable_events: f¶    disable_events: g h¶ => s@2: a@3 |  b@4 c@4 | p@5 |  d@6 |  e@7 |  f@8 |  g@9 h@9;
shots:¶  s:¶    disable_events: []¶    enable_events:¶      - a¶      - b¶    reset_events:¶    advance_events: c,, d¶    profile: default¶    hit_events: \"\"¶    switch: \"e\"¶ => s@2: e@11 |  | default@9 |  c@8 d@8 |  |  a@5 b@6 | ;
shots:¶  s:¶    hit_events: a{current_player.x==1}, b¶    advance_events: c{ current_player.x != 2 }¶    reset_events: d{current_player.x<3}¶    enable_events:¶      - e{current_player.x<=-4}¶    disable_events: f{current_player.x>5}¶ => s@2: - |  a{x Equal 1}@3 b@3 | default@0 |  c{x NotEqual 2}@4 |  d{x Less 3}@5 |  e{x LessOrEqual -4}@7 |  f{x Greater 5}@8;
shots:¶  s:¶    tags: a/¶    label: [b]¶    debug: yes¶  default:¶    switch: a¶ => s@2: - |  | default@0 |  |  |  | ; default@6: a@7 |  | default@0 |  |  |  | ;
shots:¶  s:¶    hit_events: [«1024 a, »]¶ => s@2: - | «1024  a@3» | default@0 |  |  |  | ;
shots:¶  s:¶    hit_events: [«1025 a, »]¶ => Limit 3 hit_events
shots:¶  s:¶    hit_events: a/¶ => BadValue 3 hit_events
shots:¶  s:¶    advance_events: a{x==1}¶ => BadValue 3 advance_events
shots:¶  s:¶    reset_events: {a: b}¶ => BadValue 3 reset_events
shots:¶  s:¶    enable_events: a{current_player.x==1¶ => BadValue 3 enable_events
shots:¶  s:¶    disable_events: a, b/¶ => BadValue 3 disable_events
shots:¶  s:¶    switch:¶ => BadValue 3 switch
shots:¶  s:¶    switch: a, b¶ => BadValue 3 switch
shots:¶  s:¶    profile:¶ => BadValue 3 profile
shots:¶  s:¶    profile: [p]¶ => BadValue 3 profile
shots:¶  s:¶    switches: a¶ => UnknownSetting 3 switches
shots:¶  s:¶    shots: a¶ => UnknownSetting 3 shots
shots:¶  s: a¶ => BadValue 2 s
shots:¶  a b:¶ => BadValue 2 a b
shots: a¶ => BadValue 1 shots
shots: [a]¶ => BadValue 1 shots
shots:¶  playfield:¶ => BadValue 2 playfield
shots:¶  s:¶  playfield:¶    switch: a¶ => BadValue 3 playfield
shot_groups:¶ => ;
shot_groups:¶  g: {shots: x}¶ => g@2:  x@2 |  |  |  | ;
shot_groups:¶  g:¶    reset_events: a¶    rotate_left_events: b¶    rotate_right_events: c¶    rotate_events: d, e¶    shots:¶      - x¶      - y¶ => g@2:  x@8 y@9 |  d@6 e@6 |  c@5 |  b@4 |  a@3;
shot_groups:¶  g:¶    shots: [x]¶    tags: a/¶    rotate_events:¶    rotate_right_events: []¶    rotate_left_events: a{current_player.x==1}¶    reset_events: b{current_player.x>=2}, c¶  default:¶    shots: x y x¶ => g@2:  x@3 |  |  |  a{x Equal 1}@7 |  b{x GreaterOrEqual 2}@8 c@8; default@9:  x@10 y@10 x@10 |  |  |  | ;
shot_groups:¶  g:¶    shots: «16 x№ »¶ => g@2: «16  x№@3» |  |  |  | ;
shot_groups:¶  g:¶    shots: «17 x№ »¶ => BadValue 3 shots
shot_groups:¶  g:¶    shots: [«16 x№, »]¶ => g@2: «16  x№@3» |  |  |  | ;
shot_groups:¶  g:¶    shots: [«17 x№, »]¶ => BadValue 3 shots
shot_groups:¶  g:¶    shots: [«1025 x№, »]¶ => Limit 3 shots
shot_groups:¶  g:¶ => Missing 2 shots
shot_groups:¶  g:¶    rotate_events: a¶  h:¶    shots: x¶ => Missing 2 shots
shot_groups:¶  g:¶    shots: []¶ => BadValue 3 shots
shot_groups:¶  g:¶    shots:¶ => BadValue 3 shots
shot_groups:¶  g:¶    shots: x, y/¶ => BadValue 3 shots
shot_groups:¶  g:¶    shots: {x: y}¶ => BadValue 3 shots
shot_groups:¶  g:¶    rotate_events: a/¶ => BadValue 3 rotate_events
shot_groups:¶  g:¶    rotate_right_events: a{x==1}¶ => BadValue 3 rotate_right_events
shot_groups:¶  g:¶    rotate_left_events: {a: b}¶ => BadValue 3 rotate_left_events
shot_groups:¶  g:¶    reset_events: [«1025 a, »]¶ => Limit 3 reset_events
shot_groups:¶  g:¶    shots: x¶    enable_events: a¶ => UnknownSetting 4 enable_events
shot_groups:¶  g: x¶ => BadValue 2 g
shot_groups: [g]¶ => BadValue 1 shot_groups
shot_groups:¶  playfield:¶    shots: x¶ => BadValue 2 playfield
shot_groups:¶  g:¶    shots: x¶  playfield:¶ => BadValue 4 playfield
shot_profiles:¶ => ;
shot_profiles:¶  p:¶    states:¶      - name: a¶ => p@2: {a@4}@4 | true | false;
shot_profiles:¶  p:¶    loop: yes¶    advance_on_hit: no¶    states: [{name: a}, {name: A}]¶  playfield:¶    advance_on_hit: yes¶    loop: no¶    states:¶      - name: b¶ => p@2: {a@5}@5{A@5}@5 | false | true; playfield@6: {b@10}@10 | true | false;
shot_profiles:¶  p:¶    states:¶      - name: a¶        show: [b, {c: d}]¶        number:¶      - {light: a/, name: b, label: x}¶    tags: a/¶ => p@2: {a@4}@4{b@7}@7 | true | false;
shot_profiles:¶  p:¶    states: [«16 {name: a№}, »]¶ => p@2: «16 {a№@3}@3» | true | false;
shot_profiles:¶  p:¶    states: [«17 {name: a№}, »]¶ => BadValue 3 states
shot_profiles:¶  p:¶    states: [«1025 {name: a№}, »]¶ => Limit 3 states
shot_profiles:¶  p:¶ => Missing 2 states
shot_profiles:¶  p:¶    loop: yes¶ => Missing 2 states
shot_profiles:¶  p:¶    states: []¶ => BadValue 3 states
shot_profiles:¶  p:¶    states:¶ => BadValue 3 states
shot_profiles:¶  p:¶    states: a¶ => BadValue 3 states
shot_profiles:¶  p:¶    states: [a, b]¶ => BadValue 3 states
shot_profiles:¶  p:¶    states: {name: a}¶ => BadValue 3 states
shot_profiles:¶  p:¶    states:¶      - name: a¶      - show: b¶ => Missing 5 name
shot_profiles:¶  p:¶    states:¶      - {}¶ => Missing 4 name
shot_profiles:¶  p:¶    states:¶      - name: a¶      - name:¶ => BadValue 5 name
shot_profiles:¶  p:¶    states:¶      - name: a b¶ => BadValue 4 name
shot_profiles:¶  p:¶    states:¶      - name: a¶      - name: b¶      - name: \"a\"¶        show: c¶ => BadValue 3 states
shot_profiles:¶  p:¶    states: [{name: a}, {name: a}]¶ => BadValue 3 states
shot_profiles:¶  p:¶    advance_on_hit: 1¶ => BadValue 3 advance_on_hit
shot_profiles:¶  p:¶    loop:¶ => BadValue 3 loop
shot_profiles:¶  p:¶    loops: yes¶ => UnknownSetting 3 loops
shot_profiles:¶  p: a¶ => BadValue 2 p
shot_profiles: p¶ => BadValue 1 shot_profiles
shot_profiles:¶  default:¶    states:¶      - name: a¶ => BadValue 2 default
shot_profiles:¶  p:¶    states:¶      - name: a¶  default:¶ => BadValue 5 default
shot:¶ => no section
shot_group:¶ => no section
shot_profile:¶ => no section
";

/// Texts, and what is read of them. A shot is shown by its name, its switch and its profile, and the events that hit,
/// advance, reset, enable and disable it; a group by its name and its shots, and the events that rotate it, rotate it
/// right, rotate it left and reset it; a profile by its name, whether a hit advances a shot, whether the first state
/// comes after the last, and its states.
pub(crate) const SHOTS: &str = "\
@¶shots:¶  s:¶  t:¶    switch: a¶    hit_events: b, c{current_player.x==1}¶    profile: p¶    advance_events: d¶    reset_events: e¶    enable_events: f¶    disable_events: g, h¶ => shots¶ s@3; - default@0;;;;;;¶ t@4; a@5 p@7; b@6 c{x Equal 1}@6; d@8; e@9; f@10; g@11 h@11;¶
@¶shot_groups:¶  g: {shots: x}¶  h:¶    shots: y, x¶    rotate_events: a¶    rotate_right_events: b¶    rotate_left_events: c¶    reset_events: d, e{ current_player.x < 0 }¶ => shot_groups¶ g@3; x@3;;;;;¶ h@4; y@5 x@5; a@6; b@7; c@8; d@9 e{x Less 0}@9;¶
@¶shot_groups:¶  g: {shots: «16 x№ »}¶ => shot_groups¶ g@3;«16  x№@3»;;;;;¶
@¶shot_profiles:¶  p:¶    states:¶      - name: a¶  q:¶    advance_on_hit: no¶    loop: yes¶    states:¶      - name: unlit¶        show: off¶      - {light: b, name: lit}¶ => shot_profiles¶ p@3; true false; a@5;¶ q@6; false true; unlit@10; lit@12;¶
@¶shot_profiles:¶  p: {states: [«16 {name: a№}, »]}¶ => shot_profiles¶ p@3; true false;«16  a№@3;»¶
@¶modes: m¶shots:¶  s:¶shot_groups:¶  s: {shots: s}¶shot_profiles:¶  s: {states: [{name: a}]}¶@m¶shots:¶  t: {profile: default, switch: b}¶shot_groups:¶  t: {shots: [t, s], reset_events: c}¶shot_profiles:¶  t: {states: [{name: b}], loop: on}¶ => modes¶ m@2¶shots¶ s@4; - default@0;;;;;;¶shot_groups¶ s@6; s@6;;;;;¶shot_profiles¶ s@8; true false; a@8;¶m: 100 true true;;;¶shots¶ t@3; b@3 default@3;;;;;;¶shot_groups¶ t@5; t@5 s@5;;;; c@5;¶shot_profiles¶ t@7; true true; b@7;¶
@¶shots:¶  s:¶    hit_event: a¶ => error 5 UnknownSetting config/config.yaml 4 hit_event¶
@¶shots:¶  playfield:¶ => error 6 BadValue config/config.yaml 3 playfield¶
@¶modes: m¶@m¶shots:¶  playfield:¶ => error 6 BadValue modes/m/config/m.yaml 3 playfield¶
@¶shot_groups:¶  playfield: {shots: a}¶ => error 6 BadValue config/config.yaml 3 playfield¶
@¶modes: m¶@m¶shot_groups:¶  playfield: {shots: a}¶ => error 6 BadValue modes/m/config/m.yaml 3 playfield¶
@¶shot_groups:¶  g: {shots: «17 x№ »}¶ => error 6 BadValue config/config.yaml 3 shots¶
@¶modes: m¶@m¶shot_groups:¶  g:¶ => error 7 Missing modes/m/config/m.yaml 3 shots¶
@¶shot_profiles:¶  default: {states: [{name: a}]}¶ => error 6 BadValue config/config.yaml 3 default¶
@¶modes: m¶@m¶shot_profiles:¶  default: {states: [{name: a}]}¶ => error 6 BadValue modes/m/config/m.yaml 3 default¶
@¶modes: m¶@m¶shot_profiles:¶  p: {states: [«17 {name: a№}, »]}¶ => error 6 BadValue modes/m/config/m.yaml 3 states¶
@¶shot_profiles:¶  p:¶    states:¶      - name: a¶      - show: a¶ => error 7 Missing config/config.yaml 6 name¶
@¶shot_profiles:¶  p:¶    states:¶      - name: a¶      - name: a¶ => error 6 BadValue config/config.yaml 4 states¶
@¶shots:¶  s:¶shots:¶ => error 3 Yaml config/config.yaml 4 DuplicateKey¶
@¶shots:¶  s:¶  s:¶ => error 3 Yaml config/config.yaml 4 DuplicateKey¶
@¶modes: m¶shots:¶  s:¶@m¶shots:¶  r:¶  s:¶ => error 8 Duplicate modes/m/config/m.yaml 4 s¶
@¶modes: a, b¶@a¶shot_groups:¶  g: {shots: s}¶@b¶shot_groups:¶  g: {shots: t}¶ => error 8 Duplicate modes/b/config/b.yaml 3 g¶
@m¶shot_profiles:¶  p: {states: [{name: a}]}¶@¶modes: m¶shot_profiles:¶  p: {states: [{name: b}]}¶ => error 8 Duplicate modes/m/config/m.yaml 3 p¶
@¶modes: a, b¶@a¶shots:¶  s:¶@b¶shot_groups:¶  s: {shots: s}¶ => modes¶ a@2 b@2¶a: 100 true true;;;¶shots¶ s@3; - default@0;;;;;;¶b: 100 true true;;;¶shot_groups¶ s@3; s@3;;;;;¶
";

fn show_shots(pen: &mut Pen, section: &Section) {
    for entry in section.entries_of(SHOTS_NAME) {
        let shot = as_shot(entry);
        pen.entry(shot.name);
        pen.name_at(shot.switch);
        pen.name_at(Some(shot.profile));
        pen.events(shot.hits);
        pen.events(shot.advances);
        pen.events(shot.resets);
        pen.events(shot.enables);
        pen.events(shot.disables);
        pen.put(";\n");
    }
}

fn show_groups(pen: &mut Pen, section: &Section) {
    for entry in section.entries_of(SHOT_GROUPS_NAME) {
        let group = as_shot_group(entry);
        pen.entry(group.name);
        pen.names(group.shots);
        pen.events(group.rotates);
        pen.events(group.rotates_right);
        pen.events(group.rotates_left);
        pen.events(group.resets);
        pen.put(";\n");
    }
}

fn show_states(pen: &mut Pen, states: &[Fields]) {
    for map in states {
        pen.name_at(as_state(map));
        pen.put(";");
    }
}

fn show_profiles(pen: &mut Pen, section: &Section) {
    for entry in section.entries_of(SHOT_PROFILES_NAME) {
        let profile = as_shot_profile(entry);
        pen.entry(profile.name);
        pen.also(profile.advance_on_hit);
        pen.also(profile.loops);
        pen.put(";");
        show_states(pen, profile.states);
        pen.put("\n");
    }
}

/// Adds the shots, the groups and the profiles of a section.
pub(crate) fn show_shot_sections(pen: &mut Pen, section: &Section) {
    show_shots(pen, section);
    show_groups(pen, section);
    show_profiles(pen, section);
}
