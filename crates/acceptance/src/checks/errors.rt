//! What each variant of each error of the program says.

use crate::asserts::assert_text;
use command_line::AskFault;
use pinball_shell::ShellFault;
use std::fmt::Display;
use worked_rows::Pen;

/// Adds what an error says.
fn say<E: Display + Drop>(pen: &mut Pen, error: E) {
    pen.value(error);
    pen.put(", ");
}

fn say_usage(pen: &mut Pen) {
    match String::from_str(pen.alloc, "usage: pinball") {
        Ok(text) => say(pen, AskFault::Usage(text)),
        Err(_) => pen.is_lost = true,
    }
}

#[test]
fn errors_say_their_words(rt: HostRuntime) {
    let mut pen = Pen::new(rt.alloc());
    for fault in [
        ShellFault::NoMemory,
        ShellFault::Read,
        ShellFault::Write,
        ShellFault::TooLong,
        ShellFault::WrongDevice,
    ] {
        say(&mut pen, fault);
    }
    say(&mut pen, AskFault::NoMemory);
    say_usage(&mut pen);
    assert_text(
        &rt,
        &pen,
        "NoMemory, Read, Write, TooLong, WrongDevice, NoMemory, usage: pinball, ",
    );
}
