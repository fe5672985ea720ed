//! Events that feed each other: bundles that are checked.

use crate::checks::row::assert_rows;

const ROWS: &str = "
=== twice posted check
--- check
(twice posted)
=> Yes
yes
pinball-certificate 2
bound 5
switch s_left 5
event s_left_active 4
event s_left_inactive 1
event a 3
event b 1

=== weights within limit
--- check
@ config/config.yaml
#config_version=6
event_player:
  e0: e1, e1, e1, e1, e1, e1, e1, e1, e1, e1
  e1: e2, e2, e2, e2, e2, e2, e2, e2, e2, e2
  e2: e3, e3, e3, e3, e3, e3, e3, e3, e3, e3
  e3: e4, e4, e4, e4, e4, e4, e4, e4, e4, e4
=> Yes
yes
pinball-certificate 2
bound 0
event e0 11111
event e1 1111
event e2 111
event e3 11
event e4 1

=== weights above limit
--- check
@ config/config.yaml
#config_version=6
event_player:
  e0: e1, e1, e1, e1, e1, e1, e1, e1, e1, e1
  e1: e2, e2, e2, e2, e2, e2, e2, e2, e2, e2
  e2: e3, e3, e3, e3, e3, e3, e3, e3, e3, e3
  e3: e4, e4, e4, e4, e4, e4, e4, e4, e4, e4
  e4: e5, e5, e5, e5, e5, e5, e5, e5, e5, e5
=> Refused
fault 9 Bound
no

=== event posts itself
--- check
@ config/config.yaml
#config_version=6
event_player:
  a: b, a
=> Refused
fault 8 Cycle a
no

=== cycle is told from its first event
The walk begins at the lowest event that is not grounded, `a`, and goes on to the lowest one
that the last one leads to: `c` and not `e`. The cycle is the part from `b` on.
--- check
@ config/config.yaml
#config_version=6
event_player:
  a: b
  b: x, c, e
  c: d
  d: b
  e: e
=> Refused
fault 8 Cycle b c d
no

=== cycle is told before the bound
A cycle is reported before a weight above the limit.
--- check
@ config/config.yaml
#config_version=6
event_player:
  e0: e1, e1, e1, e1, e1, e1, e1, e1, e1, e1
  e1: e2, e2, e2, e2, e2, e2, e2, e2, e2, e2
  e2: e3, e3, e3, e3, e3, e3, e3, e3, e3, e3
  e3: e4, e4, e4, e4, e4, e4, e4, e4, e4, e4
  e4: e5, e5, e5, e5, e5, e5, e5, e5, e5, e5
  p: q
  q: p
=> Refused
fault 8 Cycle p q
no
";

#[test]
fn cascades_are_checked(rt: HostRuntime) {
    assert_rows(&rt, ROWS);
}
