//! Bundles that are checked.

use crate::checks::row::assert_rows;

const ROWS: &str = "
=== one switch check
--- check
(one switch)
=> Yes
yes
pinball-certificate 2
bound 4
switch s_left 4
event s_left_active 3
event s_left_inactive 1
event a 1
event b 1

=== equal keys
--- check
@ config/config.yaml
#config_version=6
coils:
  a:
  a:
=> Refused
error 3 Yaml config/config.yaml 4 DuplicateKey
no

=== tab in indentation
--- check
@ config/config.yaml
#config_version=6
\tcoils:
=> Refused
error 3 Yaml config/config.yaml 2 Tab
no

=== no version
--- check
@ config/config.yaml
=> Refused
error 2 Version config/config.yaml 1 -
no

=== no bytes
--- check
=> Refused
error 1 Bundle - 1 -
no

=== bad name of a posted event
--- check
@ config/config.yaml
#config_version=6
event_player:
  start: go
  stop: a/b
=> Refused
error 6 BadValue config/config.yaml 4 stop
no

=== unknown section
--- check
@ config/config.yaml
#config_version=6
switches:
  s_left:
coil:
  c_up:
=> Refused
error 4 UnknownSection config/config.yaml 4 coil
no

=== open quote
--- check
@ config/config.yaml
#config_version=6
coils: \"a
=> Refused
error 3 Yaml config/config.yaml 2 Quote
no

=== line that is no entry
Where a line has to be an entry and is none, that comes before whatever else is wrong with it.
--- check
@ config/config.yaml
#config_version=6
lights:
  a: 1
  {x: 1, x: 2}
=> Refused
error 3 Yaml config/config.yaml 4 NotInSubset
no

=== skipped section note
--- check
@ config/config.yaml
#config_version=6
lights:
  l1:
    number: 1
=> Yes
note config/config.yaml 2 skipped lights
yes
pinball-certificate 2
bound 0

=== notes before a fault
The notes stand before a refusal too, those of the machine text first.
--- check
@ modes/m/config/m.yaml
whatever
@ config/config.yaml
#config_version=6
shows:
event_player: {a: b, b: a}
lights: [1, 2]
@ x
=> Refused
note config/config.yaml 2 skipped shows
note config/config.yaml 4 skipped lights
note modes/m/config/m.yaml 0 unlisted modes/m/config/m.yaml
note x 0 unlisted x
fault 8 Cycle a b
no

=== two texts of one name
--- check
@ a
@ config/config.yaml
#config_version=6
@ a
=> Refused
error 8 Duplicate a 1 -
no

=== lists in both forms
--- check
@ config/config.yaml
#config_version=6
event_player:
  a: [b, c, ]
  d:
  - b
  - 'c'
  e: b,c
=> Yes
yes
pinball-certificate 2
bound 0
event a 3
event b 1
event c 1
event d 3
event e 3

=== bad item of a switch
--- check
@ config/config.yaml
#config_version=6
switches:
  s_left:
    tags:
      - lane
      - a/b
=> Refused
error 6 BadValue config/config.yaml 4 tags
no

=== line feed in a key
--- check
@ config/config.yaml
#config_version=6
switches:
  s:
    \"a\\nyes\": b
=> Refused
error 5 UnknownSetting config/config.yaml 4 a\\x0ayes
no

=== escape in the name of a text
--- check
@ config/config.yaml
#config_version=6
@ c\u{1b}[A\u{7f}
@ c\u{1b}[A\u{7f}
=> Refused
error 8 Duplicate c\\x1b[A\\x7f 1 -
no

=== escape in a note
--- check
@ config/config.yaml
#config_version=6
event_player:
  a: a
@ c\u{1b}[A\u{7f}
=> Refused
note c\\x1b[A\\x7f 0 unlisted c\\x1b[A\\x7f
fault 8 Cycle a
no
";

#[test]
fn bundles_are_checked(rt: HostRuntime) {
    assert_rows(&rt, ROWS);
}
