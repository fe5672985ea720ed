//! Readers that fail or never end, writers that fail, and what is said then.

use crate::asserts::assert_text;
use crate::checks::row::{assert_rows, assert_walks};
use pinball_shell::{Failure, ShellFault, read_all};
use std::alloc::Global;
use worked_rows::{Pen, Source};

// Readers and writers that fail.
const FAILING: &str = "
=== reader fails at its second read
--- check
(fails at its second read)
=> Read 2

=== writer fails at its second write
--- check
(one switch)
--- writer
(fails at its second write)
=> Write 2

=== bundle fails before its certificate is read
--- verify
(fails at its second read)
--- certificate
(never ends)
=> Read 2 0

=== certificate reader fails at its second read
--- verify
(one switch)
--- certificate
(fails at its second read)
=> Read 2

=== verifying to a writer that fails at once
--- verify
(one switch)
--- certificate
--- writer
(fails at its first write)
=> Write 1

=== verifying to a writer that fails later
--- verify
(one switch)
--- certificate
--- writer
(fails at its second write)
=> Write 2
";

// Readers of a bundle or of a certificate that never end.
const ENDLESS: &str = "
=== reader never ends
--- check
(never ends)
=> TooLong 8388609

=== bundle never ends before its certificate is read
--- verify
(never ends)
--- certificate
(never ends)
=> TooLong 8388609 0

=== certificate reader never ends
--- verify
(one switch)
--- certificate
(never ends)
=> TooLong 1048577
";

// Texts that are read and answers that are written by slow and failing ones.
const WALKED: &str = "
=== accepted with a note
--- check
@ config/config.yaml
#config_version=6
lights:
switches:
  s:
event_player:
  a: b
=> Yes
note config/config.yaml 2 skipped lights
yes
pinball-certificate 2
bound 2
switch s 2
event s_active 1
event s_inactive 1
event a 2
event b 1

=== no rows
--- check
@ config/config.yaml
#config_version=6
coils: \"a
=> Refused
error 3 Yaml config/config.yaml 2 Quote
no

=== faults of rows
--- check
@ config/config.yaml
#config_version=6
event_player:
  a: ball_ended, ball_ending
=> Refused
fault 1 Name config/config.yaml 3 ball_ended
fault 1 Name config/config.yaml 3 ball_ending
no

=== verified
--- verify
@ config/config.yaml
#config_version=6
event_player:
  a: b
--- certificate
pinball-certificate 1
bound 0
event a 2
event b 1
=> Yes
yes
bound 0

=== not verified
--- verify
@ config/config.yaml
#config_version=6
event_player:
  a: b
--- certificate
pinball-certificate 1
bound 0
event a 1
event b 1
=> Refused
fault 10 Certificate Short a 2
no

=== not verified for a switch
--- verify
@ config/config.yaml
#config_version=6
switches:
  s:
--- certificate
pinball-certificate 2
bound 2
switch s 3
event s_active 1
event s_inactive 1
=> Refused
fault 10 Certificate Switch s 2
no
";

#[test]
fn readers_and_writers_fail(rt: HostRuntime) {
    assert_rows(&rt, FAILING);
}

#[test]
fn each_read_and_write_fails(rt: HostRuntime) {
    assert_walks(&rt, WALKED);
}

#[test]
fn readers_never_end(rt: HostRuntime) {
    assert_rows(&rt, ENDLESS);
}

/// Adds what is read of a text within this limit, or why it is not, and in how many reads that give a byte each.
fn add_read(pen: &mut Pen, text: &str, limit: usize) {
    let mut reader = Source::slow(text.as_bytes());
    match read_all(pen.alloc, &mut reader, limit) {
        Ok(all) => pen.put(std::str::from_utf8(&all).unwrap_or("no UTF-8")),
        Err(fault) => pen.put(fault.name()),
    }
    reader.show(pen);
    pen.put("\n");
}

#[test]
fn text_within_its_limit_is_read(rt: HostRuntime) {
    let mut pen = Pen::new(rt.alloc());
    add_read(&mut pen, "abc", 3);
    add_read(&mut pen, "", 0);
    add_read(&mut pen, "abcd", 3);
    add_read(&mut pen, "a", 0);
    assert_text(&rt, &pen, "abc 4\n 1\nTooLong 4\nTooLong 1\n");
}

/// A fault in the file `a b`.
fn in_file(alloc: Global, fault: ShellFault) -> Failure {
    match String::from_str(alloc, "a b") {
        Ok(path) => Failure::at(fault, path),
        Err(_) => Failure::from(ShellFault::NoMemory),
    }
}

/// Adds what standard error gets of a fault.
fn add_said(pen: &mut Pen, failure: &Failure) {
    let mut writer = Vec::new(pen.alloc);
    if failure.write(&mut writer).is_err() {
        pen.is_lost = true;
    }
    pen.put(std::str::from_utf8(&writer).unwrap_or("no UTF-8"));
}

// A second line names the file, if one is at fault.
const SAID: &str = "\
fault: Read
file: a b
fault: TooLong
file: a b
fault: Read
fault: Write
fault: NoMemory
";

#[test]
fn faults_are_said(rt: HostRuntime) {
    let mut pen = Pen::new(rt.alloc());
    add_said(&mut pen, &in_file(rt.alloc(), ShellFault::Read));
    add_said(&mut pen, &in_file(rt.alloc(), ShellFault::TooLong));
    add_said(&mut pen, &Failure::from(ShellFault::Read));
    add_said(&mut pen, &in_file(rt.alloc(), ShellFault::Write));
    add_said(&mut pen, &in_file(rt.alloc(), ShellFault::NoMemory));
    assert_text(&rt, &pen, SAID);
}
