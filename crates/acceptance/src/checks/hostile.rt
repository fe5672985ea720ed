//! Texts of about 1 MiB that somebody made to cost time or stack: each is answered like any other.
//! `bench/run` and `bench/hostile` measure how the time and the memory grow.

use crate::checks::row::assert_rows;

// Texts that open what nothing closes.
const OPEN: &str = "
=== opening brackets
--- check
@ config/config.yaml
#config_version=6
lights: \
--- 1048000 times
[\
=> Refused
error 3 Yaml config/config.yaml 2 TooDeep
no

=== nested items
--- check
@ config/config.yaml
#config_version=6
lights:
--- 524000 times
- \
=> Refused
error 3 Yaml config/config.yaml 3 NotInSubset
no

=== quotes
--- check
@ config/config.yaml
#config_version=6
lights: \
--- 1048000 times
\"\
=> Refused
error 3 Yaml config/config.yaml 2 Quote
no

=== single quotes
A quote, and quotes within it, each written twice: nothing closes it.
--- check
@ config/config.yaml
#config_version=6
lights: '\
--- 524000 times
''\
=> Refused
error 3 Yaml config/config.yaml 2 Quote
no
";

// Texts of many bytes or keys.
const LONG: &str = "
=== spaces
--- check
@ config/config.yaml
#config_version=6
--- 1048000 times
 \
=> Yes
yes
pinball-certificate 2
bound 0

=== one byte too many
The version line has 18 bytes.
--- check
@ config/config.yaml
#config_version=6
--- 1048559 times
 \
=> Refused
error 3 Yaml config/config.yaml 1 TooLong
no

=== many keys
A mapping of keys of which each has its own number.
--- check
@ config/config.yaml
#config_version=6
lights:
--- 100000 times
  a№:
=> Yes
note config/config.yaml 2 skipped lights
yes
pinball-certificate 2
bound 0
";

#[test]
fn open_texts_are_answered(rt: HostRuntime) {
    assert_rows(&rt, OPEN);
}

#[test]
fn long_texts_are_answered(rt: HostRuntime) {
    assert_rows(&rt, LONG);
}
