//! Logs to be read by slow and failing readers, and answered to such writers.

/// A log with a refused line, and a coil that is put off; one with nothing to write; and one that is not played.
pub const STREAM_PLAYS: &str = "
=== refused line, and a coil that is put off
--- play
@ config/config.yaml
#config_version=6
switches:
  s: {debounce: quick}
coils:
  c: {allow_enable: yes}
coil_player:
  s_active: {c: enable}
--- log
5 s 1
x
=> Refused
5 machine switch s active
5 machine event s_active
5 machine coil c enable 1000
refused 2 8 BadLine
5 machine off c

=== nothing to write
--- play
@ config/config.yaml
#config_version=6
--- log
5
=> Yes

=== nothing is played
The log is not read.
--- play
@ config/config.yaml
#config_version=6
event_player:
  a: a
--- log
5
=> Refused
fault 8 Cycle a
no
";
