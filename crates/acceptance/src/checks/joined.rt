//! Texts that are joined into a bundle.

use crate::asserts::assert_text;
use mpf_config::{MACHINE_NAME, mode_names, mode_text_name};
use pinball_shell::{BUNDLE_LIMIT, join};
use std::alloc::Global;
use worked_rows::{Pen, named};

/// Adds a bundle with one text more, and a line.
fn add_joined(pen: &mut Pen, bundle: &str, name: &str, text: &str) {
    let [bundle, name, text] = [bundle.as_bytes(), name.as_bytes(), text.as_bytes()];
    match join(pen.alloc, bundle, name, text) {
        Ok(joined) => pen.put(std::str::from_utf8(&joined).unwrap_or("no UTF-8")),
        Err(fault) => pen.put(fault.name()),
    }
    pen.put("---\n");
}

// What is joined, each with a line behind it.
const JOINED: &str = "\
@ a
x: y
@ b
---
@ config/config.yaml
#config_version=6
---
@ config/config.yaml
#config_version=6
---
@ a
@ b

---
@ a@ b
x
y
---
@\u{20}
---
";

#[test]
fn texts_are_joined(rt: HostRuntime) {
    let mut pen = Pen::new(rt.alloc());
    add_joined(&mut pen, "@ a\nx: y\n", "b", "");
    add_joined(&mut pen, "", "config/config.yaml", "#config_version=6\n");
    add_joined(&mut pen, "", "config/config.yaml", "#config_version=6");
    add_joined(&mut pen, "@ a\n", "b", "\n");
    add_joined(&mut pen, "@ a", "b", "x\ny");
    add_joined(&mut pen, "", "", "");
    assert_text(&rt, &pen, JOINED);
}

/// Adds how long a bundle is of this text alone, under a name, or why there is none.
fn add_length(pen: &mut Pen, name: &[u8], text: &[u8]) {
    match join(pen.alloc, b"", name, text) {
        Ok(joined) => pen.value(joined.len()),
        Err(fault) => pen.put(fault.name()),
    }
}

/// The line `@ a` and a line end come before the text. So the first bundle is as long as it may be, and the second has
/// one byte more.
#[test]
fn bundle_that_is_joined_has_a_limit(rt: HostRuntime) {
    let mut pen = Pen::new(rt.alloc());
    match vec![in rt.alloc(); b'x'; BUNDLE_LIMIT - 5] {
        Ok(text) => {
            add_length(&mut pen, b"a", &text);
            add_length(&mut pen, b"ab", &text);
        }
        Err(_) => pen.is_lost = true,
    }
    assert_text(&rt, &pen, "8388608TooLong");
}

/// The bundle with the text of a mode: this one of `lo`, and the other one of another mode.
fn with_mode(alloc: Global, bundle: &[u8], mode: &[u8], (lo, hi): (&str, &str)) -> Option<Vec<u8>> {
    let name = mode_text_name(alloc, mode).ok()?;
    let text = if mode == b"lo".as_slice() { lo } else { hi };
    join(alloc, bundle, &name, text.as_bytes()).ok()
}

/// The bundle of a machine text and of those of its modes, as they are listed.
fn with_modes(alloc: Global, machine: &str, texts: (&str, &str)) -> Option<Vec<u8>> {
    let modes = mode_names(alloc, machine.as_bytes()).ok()?;
    let mut bundle = join(alloc, b"", MACHINE_NAME, machine.as_bytes()).ok()?;
    for mode in &modes {
        bundle = with_mode(alloc, &bundle, mode, texts)?;
    }
    Some(bundle)
}

/// What comes before a line that names a text, and the text.
fn cut<'a>(bundle: &'a str, line: &str) -> (&'a str, &'a str) {
    bundle.split_once(line).unwrap_or(("", ""))
}

/// The last line of the text of `lo` has no end.
#[test]
fn modes_are_joined(rt: HostRuntime) {
    let bundle = named("(priority order)\n");
    let (front, hi) = cut(bundle, "@ modes/hi/config/hi.yaml\n");
    let (front, lo) = cut(front, "@ modes/lo/config/lo.yaml\n");
    let (_, machine) = cut(front, "@ config/config.yaml\n");
    let mut pen = Pen::new(rt.alloc());
    match with_modes(rt.alloc(), machine, (lo.trim_end(), hi)) {
        Some(joined) => pen.put(std::str::from_utf8(&joined).unwrap_or("no UTF-8")),
        None => pen.is_lost = true,
    }
    assert_text(&rt, &pen, bundle);
}
