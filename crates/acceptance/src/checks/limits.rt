//! Bundles and certificates at and above a limit.

use crate::checks::row::assert_rows;

// A cycle is reported only if no table is above its limit.
const ROWS: &str = "
=== depth 32
The mapping of the text is one of the 32.
--- check
@ config/config.yaml
#config_version=6
lights:
--- 31 times
␣ k:
=> Yes
note config/config.yaml 2 skipped lights
yes
pinball-certificate 2
bound 0

=== depth 33 too deep
--- check
@ config/config.yaml
#config_version=6
lights:
--- 32 times
␣ k:
=> Refused
error 3 Yaml config/config.yaml 34 TooDeep
no

=== flow depth 8
--- check
@ config/config.yaml
#config_version=6
lights: [[[[[[[[]]]]]]]]
=> Yes
note config/config.yaml 2 skipped lights
yes
pinball-certificate 2
bound 0

=== flow depth 9 too deep
--- check
@ config/config.yaml
#config_version=6
lights: [[[[[[[[[]]]]]]]]]
=> Refused
error 3 Yaml config/config.yaml 2 TooDeep
no

=== list of 1025 items
--- check
@ config/config.yaml
#config_version=6
switches:
  s:
    events_when_activated: \
--- 1024 times
e, \
--- once
e
=> Refused
error 9 Limit config/config.yaml 4 events_when_activated
no

=== switches 257
--- check
@ config/config.yaml
#config_version=6
switches:
--- 257 times
  s№:
=> Refused
fault 7 Limit switches
no

=== switches 256
--- check
@ config/config.yaml
#config_version=6
event_player:
  a: a
switches:
--- 256 times
  s№:
=> Refused
fault 8 Cycle a
no

=== coils 257
--- check
@ config/config.yaml
#config_version=6
coils:
--- 257 times
  c№:
=> Refused
fault 7 Limit coils
no

=== coils 256
--- check
@ config/config.yaml
#config_version=6
coils:
--- 256 times
  c№:
=> Yes
yes
pinball-certificate 2
bound 0

=== variables 257
--- check
@ config/config.yaml
#config_version=6
variable_player:
  a:
--- 257 times
    v№: 1
=> Refused
fault 7 Limit variables
no

=== variables 256
--- check
@ config/config.yaml
#config_version=6
event_player:
  a: a
variable_player:
  b:
--- 256 times
    v№: 1
=> Refused
fault 8 Cycle a
no

=== bindings 16385
--- check
@ config/config.yaml
#config_version=6
event_player:
--- 16385 times
  a{current_player.v==№}:
=> Refused
fault 7 Limit bindings
no

=== bindings 16384
--- check
@ config/config.yaml
#config_version=6
event_player:
--- 16384 times
  a{current_player.v==№}:
=> Yes
yes
pinball-certificate 2
bound 0
event a 1

=== bundle of 8 mebibytes and a byte
--- check
--- 8388609 times
#\
=> TooLong

=== bundle of 8 mebibytes
--- check
--- 8388608 times
#\
=> Refused
error 1 Bundle - 1 -
no

=== certificate of a mebibyte and a byte
--- verify
(one switch)
--- certificate
--- 1048577 times
#\
=> TooLong

=== certificate of a mebibyte
--- verify
(one switch)
--- certificate
--- 1048576 times
#\
=> Refused
fault 10 Certificate Line 1
no
";

#[test]
fn limits_are_kept(rt: HostRuntime) {
    assert_rows(&rt, ROWS);
}
