//! Certificates that are verified on a bundle.

use crate::checks::row::assert_rows;

// Certificates of version 1, which say nothing of switches.
const FIRST: &str = "
=== first certificate is still read
--- verify
(one switch)
--- certificate
pinball-certificate 1
bound 4
event s_left_active 3
event s_left_inactive 1
event a 1
event b 1
=> Yes
yes
bound 4

=== certificate with short weight
--- verify
(one switch)
--- certificate
pinball-certificate 1
bound 4
event s_left_active 2
event s_left_inactive 1
event a 1
event b 1
=> Refused
fault 10 Certificate Short s_left_active 3
no

=== certificate with greater weights
--- verify
(one switch)
--- certificate
pinball-certificate 1
bound 6
event s_left_active 5
event s_left_inactive 2
event a 2
event b 2
=> Yes
yes
bound 6

=== certificate with wrong bound
--- verify
(one switch)
--- certificate
pinball-certificate 1
bound 5
event s_left_active 3
event s_left_inactive 1
event a 1
event b 1
=> Refused
fault 10 Certificate Bound 4
no

=== weight sum above u32
--- verify
(twice posted)
--- certificate
pinball-certificate 1
bound 3
event s_left_active 2
event s_left_inactive 1
event a 1
event b 2147483648
=> Refused
fault 10 Certificate Short a 4294967297
no

=== weight within limit
--- verify
(one switch)
--- certificate
pinball-certificate 1
bound 10002
event s_left_active 10001
event s_left_inactive 1
event a 1
event b 1
=> Yes
yes
bound 10002

=== weight at limit
--- verify
@ config/config.yaml
#config_version=6
event_player:
  a: b, b
--- certificate
pinball-certificate 1
bound 0
event a 100000
event b 1
=> Yes
yes
bound 0

=== weight above limit
--- verify
@ config/config.yaml
#config_version=6
event_player:
  a: b, b
--- certificate
pinball-certificate 1
bound 0
event a 100001
event b 1
=> Refused
fault 9 Bound
no

=== bound at limit
--- verify
(one switch)
--- certificate
pinball-certificate 1
bound 100000
event s_left_active 99999
event s_left_inactive 99999
event a 1
event b 1
=> Yes
yes
bound 100000

=== bound above limit
--- verify
(one switch)
--- certificate
pinball-certificate 1
bound 100001
event s_left_active 100000
event s_left_inactive 1
event a 1
event b 1
=> Refused
fault 9 Bound
no

=== limit is told before another bound
--- verify
(one switch)
--- certificate
pinball-certificate 1
bound 5
event s_left_active 100000
event s_left_inactive 1
event a 1
event b 1
=> Refused
fault 9 Bound
no

=== short is told before the limit
--- verify
(one switch)
--- certificate
pinball-certificate 1
bound 100002
event s_left_active 100001
event s_left_inactive 1
event a 1
event b 0
=> Refused
fault 10 Certificate Short b 1
no

=== leading zero
--- verify
(one switch)
--- certificate
pinball-certificate 1
bound 04
event s_left_active 3
event s_left_inactive 1
event a 1
event b 1
=> Refused
fault 10 Certificate Line 2
no

=== certificate without events
--- verify
(one switch)
--- certificate
pinball-certificate 1
bound 4
=> Refused
fault 10 Certificate Events
no

=== certificate without last line end
--- verify
(one switch)
--- certificate
pinball-certificate 1
bound 4
event s_left_active 3
event s_left_inactive 1
event a 1
event b 1\
=> Refused
fault 10 Certificate Line 6
no

=== certificate cut in a line
--- verify
(one switch)
--- certificate
pinball-certificate 1
bound 4
event s_left_active 3
event s_left_inactive 1
event a 1
event b\
=> Refused
fault 10 Certificate Line 6
no

=== certificate cut to fewer events
--- verify
(one switch)
--- certificate
pinball-certificate 1
bound 4
event s_left_active 3
event s_left_inactive 1
event a 1
event b
=> Refused
fault 10 Certificate Line 6
no

=== certificate of nothing
--- verify
(one switch)
--- certificate
=> Refused
fault 10 Certificate Line 1
no

=== heading alone
--- verify
(one switch)
--- certificate
pinball-certificate 1
=> Refused
fault 10 Certificate Line 2
no

=== switch in a certificate of version 1
--- verify
(one switch)
--- certificate
pinball-certificate 1
bound 4
switch s_left 4
event s_left_active 3
event s_left_inactive 1
event a 1
event b 1
=> Refused
fault 10 Certificate Line 3
no

=== other order of events
--- verify
(one switch)
--- certificate
pinball-certificate 1
bound 4
event s_left_active 3
event s_left_inactive 1
event b 1
event a 1
=> Refused
fault 10 Certificate Events
no

=== two blanks
--- verify
(one switch)
--- certificate
pinball-certificate 1
bound 4
event s_left_active 3
event s_left_inactive 1
event a 1
event  b 1
=> Refused
fault 10 Certificate Line 6
no

=== line ends of two characters
--- verify
(one switch)
--- certificate
pinball-certificate 1\r
bound 4\r
event s_left_active 3\r
event s_left_inactive 1\r
event a 1\r
event b 1\r
=> Refused
fault 10 Certificate Line 1
no

=== weight of two to the 32
--- verify
(one switch)
--- certificate
pinball-certificate 1
bound 4
event s_left_active 3
event s_left_inactive 1
event a 1
event b 4294967296
=> Refused
fault 10 Certificate Line 6
no
";

// Certificates of version 2, which state what each switch costs.
const SECOND: &str = "
=== certificate of version 2
--- verify
(one switch)
--- certificate
pinball-certificate 2
bound 4
switch s_left 4
event s_left_active 3
event s_left_inactive 1
event a 1
event b 1
=> Yes
yes
bound 4

=== cost of a switch is one too great
--- verify
(one switch)
--- certificate
pinball-certificate 2
bound 4
switch s_left 5
event s_left_active 3
event s_left_inactive 1
event a 1
event b 1
=> Refused
fault 10 Certificate Switch s_left 4
no

=== cost of a switch is one too small
--- verify
(one switch)
--- certificate
pinball-certificate 2
bound 4
switch s_left 3
event s_left_active 3
event s_left_inactive 1
event a 1
event b 1
=> Refused
fault 10 Certificate Switch s_left 4
no

=== costs of greater weights
--- verify
(one switch)
--- certificate
pinball-certificate 2
bound 6
switch s_left 6
event s_left_active 5
event s_left_inactive 2
event a 2
event b 2
=> Yes
yes
bound 6

=== least costs beside greater weights
--- verify
(one switch)
--- certificate
pinball-certificate 2
bound 6
switch s_left 4
event s_left_active 5
event s_left_inactive 2
event a 2
event b 2
=> Refused
fault 10 Certificate Switch s_left 6
no

=== costs of two switches
Each cost is that of the dearer change: of the left switch both cost 3, of the right one the activation costs 2.
--- verify
(two switches)
--- certificate
pinball-certificate 2
bound 4
switch s_left 3
switch s_right 4
event s_left_active 2
event s_left_inactive 1
event s_right_active 1
event s_right_inactive 3
event a 1
event b 1
=> Yes
yes
bound 4

=== cost of the activation alone
--- verify
(two switches)
--- certificate
pinball-certificate 2
bound 4
switch s_left 3
switch s_right 2
event s_left_active 2
event s_left_inactive 1
event s_right_active 1
event s_right_inactive 3
event a 1
event b 1
=> Refused
fault 10 Certificate Switch s_right 4
no

=== of two wrong costs the first is told
--- verify
(two switches)
--- certificate
pinball-certificate 2
bound 4
switch s_left 2
switch s_right 5
event s_left_active 2
event s_left_inactive 1
event s_right_active 1
event s_right_inactive 3
event a 1
event b 1
=> Refused
fault 10 Certificate Switch s_left 3
no

=== costs of swapped switches
--- verify
(two switches)
--- certificate
pinball-certificate 2
bound 4
switch s_left 4
switch s_right 3
event s_left_active 2
event s_left_inactive 1
event s_right_active 1
event s_right_inactive 3
event a 1
event b 1
=> Refused
fault 10 Certificate Switch s_left 3
no

=== swapped switches
--- verify
(two switches)
--- certificate
pinball-certificate 2
bound 4
switch s_right 4
switch s_left 3
event s_left_active 2
event s_left_inactive 1
event s_right_active 1
event s_right_inactive 3
event a 1
event b 1
=> Refused
fault 10 Certificate Switches
no

=== last switch is missing
--- verify
(two switches)
--- certificate
pinball-certificate 2
bound 4
switch s_left 3
event s_left_active 2
event s_left_inactive 1
event s_right_active 1
event s_right_inactive 3
event a 1
event b 1
=> Refused
fault 10 Certificate Switches
no

=== first switch is missing
--- verify
(two switches)
--- certificate
pinball-certificate 2
bound 4
switch s_right 4
event s_left_active 2
event s_left_inactive 1
event s_right_active 1
event s_right_inactive 3
event a 1
event b 1
=> Refused
fault 10 Certificate Switches
no

=== one switch twice
--- verify
(two switches)
--- certificate
pinball-certificate 2
bound 4
switch s_left 3
switch s_left 3
event s_left_active 2
event s_left_inactive 1
event s_right_active 1
event s_right_inactive 3
event a 1
event b 1
=> Refused
fault 10 Certificate Switches
no

=== another switch
--- verify
(one switch)
--- certificate
pinball-certificate 2
bound 4
switch s_right 4
event s_left_active 3
event s_left_inactive 1
event a 1
event b 1
=> Refused
fault 10 Certificate Switches
no

=== a switch too many
--- verify
(one switch)
--- certificate
pinball-certificate 2
bound 4
switch s_left 4
switch s_right 4
event s_left_active 3
event s_left_inactive 1
event a 1
event b 1
=> Refused
fault 10 Certificate Switches
no

=== no switch
--- verify
(one switch)
--- certificate
pinball-certificate 2
bound 4
event s_left_active 3
event s_left_inactive 1
event a 1
event b 1
=> Refused
fault 10 Certificate Switches
no

=== plan without switches
--- verify
@ config/config.yaml
#config_version=6
event_player:
  a: b, b
--- certificate
pinball-certificate 2
bound 0
event a 3
event b 1
=> Yes
yes
bound 0

=== a switch in a plan without switches
--- verify
@ config/config.yaml
#config_version=6
event_player:
  a: b, b
--- certificate
pinball-certificate 2
bound 0
switch s_left 1
event a 3
event b 1
=> Refused
fault 10 Certificate Switches
no

=== certificate of version 2 without events and switches
--- verify
(one switch)
--- certificate
pinball-certificate 2
bound 4
=> Refused
fault 10 Certificate Events
no

=== certificate of version 2 without events
--- verify
(one switch)
--- certificate
pinball-certificate 2
bound 4
switch s_left 4
=> Refused
fault 10 Certificate Events
no

=== other events are told before other switches
--- verify
(one switch)
--- certificate
pinball-certificate 2
bound 4
switch s_right 4
event s_left_active 3
event s_left_inactive 1
event b 1
event a 1
=> Refused
fault 10 Certificate Events
no

=== other switches are told before a short weight
--- verify
(one switch)
--- certificate
pinball-certificate 2
bound 4
switch s_right 4
event s_left_active 2
event s_left_inactive 1
event a 1
event b 1
=> Refused
fault 10 Certificate Switches
no

=== a short weight is told before a wrong cost
--- verify
(one switch)
--- certificate
pinball-certificate 2
bound 5
switch s_left 5
event s_left_active 2
event s_left_inactive 1
event a 1
event b 1
=> Refused
fault 10 Certificate Short s_left_active 3
no

=== the limit is told before another bound and a wrong cost
--- verify
(one switch)
--- certificate
pinball-certificate 2
bound 5
switch s_left 5
event s_left_active 3
event s_left_inactive 100001
event a 1
event b 1
=> Refused
fault 9 Bound
no

=== another bound is told before a wrong cost
--- verify
(one switch)
--- certificate
pinball-certificate 2
bound 5
switch s_left 5
event s_left_active 3
event s_left_inactive 1
event a 1
event b 1
=> Refused
fault 10 Certificate Bound 4
no

=== cost at limit
--- verify
(one switch)
--- certificate
pinball-certificate 2
bound 100000
switch s_left 100000
event s_left_active 99999
event s_left_inactive 1
event a 1
event b 1
=> Yes
yes
bound 100000
";

// Texts that are certificates of version 2, or nearly.
const LINES: &str = "
=== heading of version 2 alone
--- verify
(one switch)
--- certificate
pinball-certificate 2
=> Refused
fault 10 Certificate Line 2
no

=== heading of version 3
--- verify
(one switch)
--- certificate
pinball-certificate 3
bound 4
switch s_left 4
event s_left_active 3
event s_left_inactive 1
event a 1
event b 1
=> Refused
fault 10 Certificate Line 1
no

=== heading with a leading zero
--- verify
(one switch)
--- certificate
pinball-certificate 02
bound 4
switch s_left 4
event s_left_active 3
event s_left_inactive 1
event a 1
event b 1
=> Refused
fault 10 Certificate Line 1
no

=== bound with a leading zero
--- verify
(one switch)
--- certificate
pinball-certificate 2
bound 04
switch s_left 4
event s_left_active 3
event s_left_inactive 1
event a 1
event b 1
=> Refused
fault 10 Certificate Line 2
no

=== switch before the bound
--- verify
(one switch)
--- certificate
pinball-certificate 2
switch s_left 4
bound 4
event s_left_active 3
event s_left_inactive 1
event a 1
event b 1
=> Refused
fault 10 Certificate Line 2
no

=== switch after an event
--- verify
(one switch)
--- certificate
pinball-certificate 2
bound 4
event s_left_active 3
switch s_left 4
event s_left_inactive 1
event a 1
event b 1
=> Refused
fault 10 Certificate Line 4
no

=== switch after all events
--- verify
(one switch)
--- certificate
pinball-certificate 2
bound 4
switch s_left 4
event s_left_active 3
event s_left_inactive 1
event a 1
event b 1
switch s_left 4
=> Refused
fault 10 Certificate Line 8
no

=== cost with a leading zero
--- verify
(one switch)
--- certificate
pinball-certificate 2
bound 4
switch s_left 04
event s_left_active 3
event s_left_inactive 1
event a 1
event b 1
=> Refused
fault 10 Certificate Line 3
no

=== cost of two to the 32
--- verify
(one switch)
--- certificate
pinball-certificate 2
bound 4
switch s_left 4294967296
event s_left_active 3
event s_left_inactive 1
event a 1
event b 1
=> Refused
fault 10 Certificate Line 3
no

=== greatest cost that can be stated
--- verify
(one switch)
--- certificate
pinball-certificate 2
bound 4
switch s_left 4294967295
event s_left_active 3
event s_left_inactive 1
event a 1
event b 1
=> Refused
fault 10 Certificate Switch s_left 4
no

=== switch without its cost
--- verify
(one switch)
--- certificate
pinball-certificate 2
bound 4
switch s_left
event s_left_active 3
event s_left_inactive 1
event a 1
event b 1
=> Refused
fault 10 Certificate Line 3
no

=== two costs of a switch
--- verify
(one switch)
--- certificate
pinball-certificate 2
bound 4
switch s_left 4 2
event s_left_active 3
event s_left_inactive 1
event a 1
event b 1
=> Refused
fault 10 Certificate Line 3
no

=== two blanks in the line of a switch
--- verify
(one switch)
--- certificate
pinball-certificate 2
bound 4
switch  s_left 4
event s_left_active 3
event s_left_inactive 1
event a 1
event b 1
=> Refused
fault 10 Certificate Line 3
no

=== another word in place of switch
--- verify
(one switch)
--- certificate
pinball-certificate 2
bound 4
switches s_left 4
event s_left_active 3
event s_left_inactive 1
event a 1
event b 1
=> Refused
fault 10 Certificate Line 3
no

=== bad line after two switches
--- verify
(two switches)
--- certificate
pinball-certificate 2
bound 4
switch s_left 3
switch s_right 4
event s_left_active
event s_left_inactive 1
event s_right_active 1
event s_right_inactive 3
event a 1
event b 1
=> Refused
fault 10 Certificate Line 5
no

=== bad line after the first event
--- verify
(one switch)
--- certificate
pinball-certificate 2
bound 4
switch s_left 4
event s_left_active 3
event s_left_inactive 01
event a 1
event b 1
=> Refused
fault 10 Certificate Line 5
no

=== no line end after the last event
--- verify
(one switch)
--- certificate
pinball-certificate 2
bound 4
switch s_left 4
event s_left_active 3
event s_left_inactive 1
event a 1
event b 1\
=> Refused
fault 10 Certificate Line 7
no

=== no line end after the last switch
--- verify
(one switch)
--- certificate
pinball-certificate 2
bound 4
switch s_left 4\
=> Refused
fault 10 Certificate Line 3
no

=== no line end after the bound
--- verify
(one switch)
--- certificate
pinball-certificate 2
bound 4\
=> Refused
fault 10 Certificate Line 2
no

=== line ends of two characters, after switches
--- verify
(one switch)
--- certificate
pinball-certificate 2\r
bound 4\r
switch s_left 4\r
event s_left_active 3\r
event s_left_inactive 1\r
event a 1\r
event b 1\r
=> Refused
fault 10 Certificate Line 1
no
";

#[test]
fn certificates_are_verified(rt: HostRuntime) {
    assert_rows(&rt, FIRST);
    assert_rows(&rt, SECOND);
    assert_rows(&rt, LINES);
}
