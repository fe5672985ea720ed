//! Shots, groups and profiles: bundles that are checked.

use crate::checks::row::assert_rows;

const CHECKS: &str = "
=== shot in two groups
--- check
@ config/config.yaml
#config_version=6
shots:
  x: {hit_events: e}
shot_groups:
  g: {shots: x}
  h: {shots: x}
=> Refused
fault 1 Name config/config.yaml 6 x
no

=== shot twice in one group
The same line is printed once.
--- check
@ config/config.yaml
#config_version=6
shots:
  x: {hit_events: e}
  y: {hit_events: f}
shot_groups:
  g: {shots: [x, y, x, x]}
  h:
    shots:
    - y
=> Refused
fault 1 Name config/config.yaml 6 x
fault 1 Name config/config.yaml 9 y
no

=== shots that nothing defines
--- check
@ config/config.yaml
#config_version=6
shot_groups:
  g: {shots: x}
shots:
  y: {switch: s_y, profile: p}
  z: {profile: default}
=> Refused
fault 1 Name config/config.yaml 3 x
fault 1 Name config/config.yaml 5 s_y
fault 1 Name config/config.yaml 5 p
no

=== profiles of a group differ
--- check
@ config/config.yaml
#config_version=6
shots:
  x: {profile: p}
  y: {profile: default}
  z: {profile: p}
shot_groups:
  g:
    shots: x, z
  h: {shots: [y]}
  i: {shots: [y]}
shot_profiles:
  p: {states: [{name: one}]}
=> Refused
fault 1 Name config/config.yaml 10 y
no

=== profile of the first shot counts
Where the first shot is not defined, no profile is compared; y is at fault in h since g lists it.
--- check
@ config/config.yaml
#config_version=6
shots:
  x: {profile: p}
  y: {}
  z: {profile: p}
shot_groups:
  g:
    shots:
    - x
    - y
    - z
  h:
    shots:
    - nothing
    - y
shot_profiles:
  p: {states: [{name: one}]}
=> Refused
fault 1 Name config/config.yaml 10 y
fault 1 Name config/config.yaml 14 nothing
fault 1 Name config/config.yaml 15 y
no

=== shot of another text
In m the first shot has another profile than y; in n y is listed before.
--- check
@ config/config.yaml
#config_version=6
modes: [m, n]
shots:
  x: {}
@ modes/m/config/m.yaml
#config_version=6
shots:
  y: {profile: p}
shot_groups:
  g:
    shots:
    - x
    - y
@ modes/n/config/n.yaml
#config_version=6
shots:
  z: {}
shot_groups:
  h:
    shots:
    - z
    - y
shot_profiles:
  p: {states: [{name: one}]}
=> Refused
fault 1 Name modes/m/config/m.yaml 7 x
fault 1 Name modes/m/config/m.yaml 8 y
fault 1 Name modes/n/config/n.yaml 8 y
no

=== faults on one line as they are written
--- check
@ config/config.yaml
#config_version=6
{shot_groups: {g: {shots: y}}, shots: {x: {switch: s_no}}}
=> Refused
fault 1 Name config/config.yaml 2 y
fault 1 Name config/config.yaml 2 s_no
no

=== costs of a lone shot
A hit posts four events.
--- check
@ config/config.yaml
#config_version=6
shots:
  x: {hit_events: e}
=> Yes
yes
pinball-certificate 2
bound 0
event e 5
event x_hit 1
event x_default_hit 1
event x_default_unlit_hit 1
event x_unlit_hit 1
event x_default_lit_hit 1
event x_lit_hit 1

=== costs of a group
A hit that completes the group posts eight. The events of the group come at its entry.
--- check
@ config/config.yaml
#config_version=6
shots:
  x: {hit_events: e}
shot_groups:
  g: {shots: x, rotate_events: r}
=> Yes
yes
pinball-certificate 2
bound 0
event e 9
event r 1
event x_hit 1
event x_default_hit 1
event x_default_unlit_hit 1
event x_unlit_hit 1
event x_default_lit_hit 1
event x_lit_hit 1
event g_hit 1
event g_unlit_hit 1
event g_lit_hit 1
event g_complete 1
event g_unlit_complete 1
event g_lit_complete 1

=== a group that hits its own shot
Each completion hits a shot, which could complete the group again.
--- check
@ config/config.yaml
#config_version=6
shots:
  x: {hit_events: g_lit_complete}
  y: {hit_events: x_hit}
shot_groups:
  g: {shots: [x, y]}
=> Refused
fault 8 Cycle g_lit_complete
no

=== a group that resets itself
A reset posts nothing, so this is no cycle.
--- check
@ config/config.yaml
#config_version=6
shots:
  x: {hit_events: e}
shot_groups:
  g: {shots: x, reset_events: g_complete}
=> Yes
yes
pinball-certificate 2
bound 0
event e 9
event g_complete 1
event x_hit 1
event x_default_hit 1
event x_default_unlit_hit 1
event x_unlit_hit 1
event x_default_lit_hit 1
event x_lit_hit 1
event g_hit 1
event g_unlit_hit 1
event g_lit_hit 1
event g_unlit_complete 1
event g_lit_complete 1
";

#[test]
fn shots_are_checked(rt: HostRuntime) {
    assert_rows(&rt, CHECKS);
}
