//! Tables of cases. A row is `TEXT => ANSWER`. In both, `¶` stands for LF, and `«N PART»` for N times PART. In PART,
//! `№` stands for the number of the time, from 1 to N, and `␣` for as many blanks as PART has come before.
//!
//! If an allocation is refused, by `rt try --test --fail-alloc N`, a test fails with `no memory`. If it shows a row
//! instead, an answer came in place of the error.

use crate::bundles::{show_bundle, show_machine_text, show_mode_names, show_texts};
use crate::pen::Pen;
use crate::tables::show_pair;
use crate::values::{Kind, show_nodes, show_value};
use crate::yaml::{show_bytes, show_length, show_yaml};
use std::process::Abort;

/// What the texts of a table are.
pub(crate) enum Subject {
    /// YAML, of which the tree or the fault is shown.
    Yaml,
    /// The same, where each character stands for the byte of its number.
    Bytes,
    /// YAML, of which it is shown how many items or keys there are.
    Length,
    /// Values of a kind, in brackets.
    Value(Kind),
    /// YAML that is a list of names.
    Nodes,
    /// Bundles.
    Bundle,
    /// Machine texts behind their version line.
    Machine,
    /// Bundles in which a line `@M` is in place of `@ modes/M/config/M.yaml` and a version line, and
    /// the line `@` is in place of those of the machine text.
    Texts,
    /// Machine texts, of which the names of the modes are shown.
    ModeNames,
    /// YAML whose first pair is read as an entry by `tables::SETTINGS`.
    Entry,
    /// The same by `tables::NEEDS`.
    Needs,
    /// The same by `tables::OWN_NAMES`.
    OwnNames,
    /// YAML whose first pair is read as a section by `tables::PLAYER`.
    Players,
    /// YAML whose first pair is a section of a machine.
    Section,
    /// YAML whose first pair is a section of a mode.
    ModeSection,
}

fn add_blanks(pen: &mut Pen, count: usize) {
    for _ in 0..count {
        pen.put(" ");
    }
}

// Adds the part of this number, counted from 1.
fn add_part(pen: &mut Pen, part: &str, number: usize) {
    for c in part.chars() {
        match c {
            '¶' => pen.push('\n'),
            '№' => pen.value(number),
            '␣' => add_blanks(pen, number.saturating_sub(1)),
            _ => pen.push(c),
        }
    }
}

// Adds what stands behind `«`.
fn add_parts(pen: &mut Pen, again: &str) {
    let (count, part) = again.split_once(' ').unwrap_or((again, ""));
    let Ok(count) = count.parse::<usize>() else {
        return pen.put("this is no count");
    };
    for number in 1..=count {
        add_part(pen, part, number);
    }
}

// Adds what stands in a cell.
fn add_cell(pen: &mut Pen, cell: &str) {
    for part in cell.split('»') {
        let (once, again) = part.split_once('«').unwrap_or((part, "0 "));
        add_part(pen, once, 1);
        add_parts(pen, again);
    }
}

// Adds the answer to a text.
fn answer(pen: &mut Pen, subject: &Subject, text: &str) {
    match subject {
        Subject::Yaml => show_yaml(pen, text.as_bytes()),
        Subject::Bytes => show_bytes(pen, text),
        Subject::Length => show_length(pen, text),
        Subject::Value(kind) => show_value(pen, kind, text),
        Subject::Nodes => show_nodes(pen, text),
        Subject::Bundle => show_bundle(pen, text.as_bytes()),
        Subject::Machine => show_machine_text(pen, text),
        Subject::Texts => show_texts(pen, text),
        Subject::ModeNames => show_mode_names(pen, text.as_bytes()),
        _ => show_pair(pen, subject, text),
    }
}

// Adds a row and what is found, if that is not what is wanted.
fn compare(wrong: &mut Pen, row: &str, found: &Pen, wanted: &Pen) {
    if found.is_lost || wanted.is_lost {
        return wrong.lose();
    }
    if found.text.as_str() != wanted.text.as_str() {
        wrong.put(row);
        wrong.put("\nhas the answer ");
        wrong.put(&found.text);
        wrong.put("\n");
    }
}

// Adds the answer to what stands in a cell.
fn answer_cell(found: &mut Pen, subject: &Subject, cell: &str) {
    let mut text = Pen::new(found.alloc);
    add_cell(&mut text, cell);
    answer(found, subject, &text.text);
    if text.is_lost {
        found.lose();
    }
}

// Adds a row and its answer, if that is not the one that stands there.
fn check_row(wrong: &mut Pen, subject: &Subject, row: &str) {
    let (text, answer) = row
        .split_once(" => ")
        .unwrap_or((row, "a row has no answer"));
    let mut found = Pen::new(wrong.alloc);
    answer_cell(&mut found, subject, text);
    let mut wanted = Pen::new(wrong.alloc);
    add_cell(&mut wanted, answer);
    compare(wrong, row, &found, &wanted);
}

fn check_rows(wrong: &mut Pen, subject: &Subject, table: &str) {
    for row in table.lines() {
        check_row(wrong, subject, row);
    }
}

/// The text of each row has the answer that stands there.
pub(crate) fn assert_rows<R: Abort + AllocGlobal>(rt: &R, subject: &Subject, table: &str) {
    let mut wrong = Pen::new(rt.alloc());
    check_rows(&mut wrong, subject, table);
    assert_text(rt, &wrong, "");
}

/// This is written in the end.
pub(crate) fn assert_text<R: Abort>(rt: &R, found: &Pen, wanted: &str) {
    assert_eq!(rt; found.end(), wanted);
}
