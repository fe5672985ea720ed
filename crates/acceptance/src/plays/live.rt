//! Logs that come to a live machine.

use crate::plays::row::{LIVE, assert_rows_by};
use coil_guard::Board;
use config_checker::Checked;
use device_objects::Device;
use live_machine::{LineLink, LinkWriter, Wire, run_live};
use pinball_shell::{ShellFault, Verdict};
use std::alloc::Global;
use std::io::{self, BufWriter, Write};
use worked_rows::{Sink, Source};

/// How many bytes of an answer are told at once. Each answer of a row has fewer.
const ANSWER_ROOM: usize = 8192;

/// What is told, without the lines `due`. It comes in whole lines.
#[derive(Drop)]
struct WithoutDue<'a> {
    sink: &'a mut Sink,
}

impl Write for WithoutDue<'_> {
    fn write(&mut self, buf: &[u8]) -> io::Result<usize> {
        for line in buf.split_inclusive(|b| *b == b'\n') {
            if !line.starts_with(b"due ") {
                self.sink.write_all(line)?;
            }
        }
        Ok(buf.len())
    }

    fn flush(&mut self) -> io::Result<()> {
        Ok(())
    }
}

/// Runs a machine live on a log, and writes what it tells, without the lines `due`.
pub(crate) fn play_live<D: Device, B: Board>(
    alloc: Global,
    checked: &Checked,
    devices: Vec<D>,
    board: B,
    log: &mut Source<'_>,
    sink: &mut Sink,
) -> Result<Verdict, ShellFault> {
    let mut wire = wire_of(alloc, log, WithoutDue { sink })?;
    run_live(alloc, checked, devices, board, &mut wire)
}

/// The wire of a link over a log.
fn wire_of<'a, 'b>(
    alloc: Global,
    log: &'a mut Source<'b>,
    sink: WithoutDue<'a>,
) -> Result<Wire<LineLink<&'a mut Source<'b>, WithoutDue<'a>>>, ShellFault> {
    let link = LineLink::new(alloc, log, sink)?;
    let wire = BufWriter::with_capacity(alloc, ANSWER_ROOM, LinkWriter { link });
    wire.map_err(|_| ShellFault::NoMemory)
}

// Readers and writers that fail, and a line that is too long.
const FAULTS: &str = "
=== line is too long
What comes before it is answered, and the coil is turned off.
--- play
@ config/config.yaml
#config_version=6
switches:
  s: {debounce: quick}
coils:
  c: {allow_enable: yes}
coil_player:
  s_active: {c: enable}
--- log
5 s 1
--- 4097 times
#\
=> TooLong
5 machine switch s active
5 machine event s_active
5 machine coil c enable 1000
5 machine off c

=== reader fails
--- play
(one switch)
--- log
(fails at its second read)
=> Read 2

=== writer fails
--- play
(one switch)
--- log
100 s_left 1
200 s_left 0
--- writer
(fails at its second write)
=> Write 3
";

#[test]
fn live_machines_end_with_faults(rt: HostRuntime) {
    assert_rows_by(&rt, LIVE, FAULTS);
}
