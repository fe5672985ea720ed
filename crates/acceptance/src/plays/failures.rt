//! Readers and writers that fail, and readers that never end.

use crate::plays::row::{assert_rows, assert_walks};
use worked_rows::STREAM_PLAYS;

// A reader and a writer that fail.
const FAILING: &str = "
=== log reader fails at its second read
--- play
(one switch)
--- log
(fails at its second read)
=> Read 2

=== trace writer fails at its second write
--- play
(one switch)
--- log
100 s_left 1
200 s_right 0
--- writer
(fails at its second write)
=> Write 2
";

// Readers that never end, and logs at and above the limit.
const ENDLESS: &str = "
=== loading from a reader that never ends
--- play
(never ends)
=> TooLong 8388609

=== log reader never ends
--- play
(one switch)
--- log
(never ends)
=> TooLong 16777217

=== log of 16 mebibytes and a byte
--- play
(one switch)
--- log
--- 16777217 times
#\
=> TooLong

=== log of 16 mebibytes
--- play
(one switch)
--- log
--- 16777216 times
#\
=> Yes
";

#[test]
fn readers_and_writers_fail(rt: HostRuntime) {
    assert_rows(&rt, FAILING);
}

#[test]
fn each_read_and_write_fails(rt: HostRuntime) {
    assert_walks(&rt, STREAM_PLAYS);
}

#[test]
fn readers_never_end(rt: HostRuntime) {
    assert_rows(&rt, ENDLESS);
}
