//! The words of the command line.

use crate::asserts::assert_text;
use command_line::{AskFault, command};
use std::alloc::Global;
use worked_rows::Pen;

// Words of a command line, where `''` is an empty one, and what they ask for.
const ROWS: &str = "\
check => Check { folder: None }
check . => Check { folder: Some(\".\") }
check check => Check { folder: Some(\"check\") }
check '' => Check { folder: Some(\"\") }
play switches.log => Play { log: \"switches.log\", folder: None }
play - => Play { log: \"-\", folder: None }
play help => Play { log: \"help\", folder: None }
play logs/today => Play { log: \"logs/today\", folder: None }
play '' => Play { log: \"\", folder: None }
play a b => Play { log: \"a\", folder: Some(\"b\") }
verify lanes.certificate => Verify { certificate: \"lanes.certificate\", folder: None }
verify - => Verify { certificate: \"-\", folder: None }
verify check => Verify { certificate: \"check\", folder: None }
verify '' => Verify { certificate: \"\", folder: None }
verify a my/machine => Verify { certificate: \"a\", folder: Some(\"my/machine\") }
 => usage
'' => usage
checks => usage
Check => usage
check a b => usage
check --log a => usage
play => usage
play a b c => usage
play -a => usage
play a -b => usage
verify => usage
verify a b c => usage
help => usage
help play => usage
--help => usage
check -h => usage
--version => usage
-V => usage
check --version => usage
-- check => usage";

/// Adds a word to words. If memory runs out, it is missing, and what is written is lost.
fn add_word(pen: &mut Pen, words: &mut Vec<String>, word: &str) {
    let is_added = match String::from_str(pen.alloc, word) {
        Ok(word) => words.push(word).is_ok(),
        Err(_) => false,
    };
    if !is_added {
        pen.is_lost = true;
    }
}

/// The words of a text, where `''` is an empty one.
fn words_of(pen: &mut Pen, texts: &str) -> Vec<String> {
    let mut words = Vec::new(pen.alloc);
    for text in texts.split(" ") {
        if !text.is_empty() {
            add_word(pen, &mut words, if text == "''" { "" } else { text });
        }
    }
    words
}

/// Adds what words ask for.
fn ask(pen: &mut Pen, words: Vec<String>) {
    match command(pen.alloc, words) {
        Ok(ask) => pen.shown(ask),
        Err(AskFault::Usage(text)) if !text.is_empty() => pen.put("usage"),
        Err(_) => pen.put("no usage"),
    }
}

/// Adds a row and what its words ask for, if that is not what stands there.
fn check_row(wrong: &mut Pen, row: &str) {
    let (texts, wanted) = row.split_once(" => ").unwrap_or(("", "a row"));
    let mut found = Pen::new(wrong.alloc);
    let words = words_of(&mut found, texts);
    ask(&mut found, words);
    if found.end() != wanted {
        wrong.put(row);
        wrong.put(" has the answer ");
        wrong.put(found.end());
    }
}

#[test]
fn words_ask(rt: HostRuntime) {
    let mut wrong = Pen::new(rt.alloc());
    for row in ROWS.split("\n") {
        check_row(&mut wrong, row);
    }
    assert_text(&rt, &wrong, "");
}

/// The usage that is told; empty if none is.
fn usage(alloc: Global, words: Vec<String>) -> String {
    match command(alloc, words) {
        Err(AskFault::Usage(text)) => text,
        _ => String::new(alloc),
    }
}

#[test]
fn usage_names_what_is_wrong(rt: HostRuntime) {
    let mut pen = Pen::new(rt.alloc());
    let words = words_of(&mut pen, "prove");
    let told = usage(pen.alloc, words);
    let names = told.contains("unrecognized subcommand 'prove'")
        && told.contains("Usage: pinball <COMMAND>");
    if !names {
        pen.put("another usage: ");
        pen.put(&told);
    }
    assert_text(&rt, &pen, "");
}
