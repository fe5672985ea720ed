//! Tables of worked rows, and what runs them.
//!
//! A row comes after an empty line. It begins with `=== ` and its title, which may go on with the
//! reason for the row. Then come its parts, each after a line of its own:
//!
//! - `--- check`, `--- verify` or `--- play`: what is done, with this bundle;
//! - `--- certificate` or `--- log`: what is verified or played on it;
//! - `--- board`: how the board faults, if it does;
//! - `--- writer`: how the writer fails, if it does (`Sink::of`);
//! - `=> Yes`, `=> Refused` or a fault: the answer, with all that is printed.
//!
//! A text is written line by line. A `\` at the end of a line takes the line end away, as in every
//! text of Rattle. What comes after `--- N times` is repeated N times, each time with its number,
//! from 0, in place of `№`, and with as many blanks in place of `␣`. A line `--- once` ends what is
//! repeated. A text in parentheses is the name of a text (`texts`) or of a reader (`Source::of`).
//! After the answer come the number of commands that a board took, if it may fault, and the number of
//! calls of each reader or writer that may fail.

use crate::pen::Pen;
use crate::sink::Sink;
use crate::source::Source;
use crate::texts::named;
use std::alloc::Global;

/// The parts of a row.
#[derive(Clone, Copy)]
pub struct Row<'a> {
    /// What is done.
    pub call: &'a str,
    pub bundle: &'a str,
    /// The certificate or the log.
    pub other: &'a str,
    pub board: &'a str,
    pub writer: &'a str,
    /// The answer, with all that is printed.
    pub wanted: &'a str,
}

impl<'a> Row<'a> {
    /// The parts of the row with this text. If it has no answer, one is wanted that nothing gives.
    pub fn of(text: &'a str) -> Row<'a> {
        let (given, wanted) = text.split_once("=> ").unwrap_or((text, "an answer"));
        let (_, given) = cut(given, "\n--- ");
        let (given, writer) = cut(given, "--- writer\n");
        let (given, board) = cut(given, "--- board\n");
        let (call, texts) = cut(given, "\n");
        let mark = if call == "play" {
            "--- log\n"
        } else {
            "--- certificate\n"
        };
        let (bundle, other) = cut(texts, mark);
        Row {
            call,
            bundle,
            other,
            board,
            writer,
            wanted,
        }
    }
}

/// What answers rows.
pub trait Answers {
    /// Adds the answer to a row, with these readers and this writer.
    fn answer(
        &self,
        pen: &mut Pen,
        row: &Row<'_>,
        bundle: &mut Source<'_>,
        other: &mut Source<'_>,
        sink: &mut Sink,
    );
}

/// The rows of a table that are not answered as they say, each with its answer.
pub fn wrong_rows<A: Answers>(alloc: Global, answers: &A, table: &str) -> Pen {
    let mut wrong = Pen::new(alloc);
    let (_, rows) = table.split_once("\n=== ").unwrap_or(("", ""));
    for row in rows.split("\n=== ") {
        check_row(&mut wrong, answers, row);
    }
    wrong
}

/// Adds a row and its answer, if the row has another one.
fn check_row<A: Answers>(wrong: &mut Pen, answers: &A, text: &str) {
    let row = Row::of(text);
    let found = answered(wrong.alloc, answers, &row);
    if found.end() != row.wanted {
        wrong.put(text);
        wrong.put("\nhas the answer ");
        wrong.put(found.end());
    }
}

/// What comes before a mark, and after it.
pub(crate) fn cut<'a>(text: &'a str, mark: &str) -> (&'a str, &'a str) {
    text.split_once(mark).unwrap_or((text, ""))
}

/// The answer to a row, how often what may fail was called, and what was printed.
pub fn answered<A: Answers>(alloc: Global, answers: &A, row: &Row<'_>) -> Pen {
    let mut found = Pen::new(alloc);
    let bundle = written(alloc, row.bundle);
    let other = written(alloc, row.other);
    let mut source = Source::of(bundle.end());
    let mut next = Source::of(other.end());
    let mut sink = Sink::of(alloc, row.writer);
    answers.answer(&mut found, row, &mut source, &mut next, &mut sink);
    source.show(&mut found);
    next.show(&mut found);
    sink.show(&mut found);
    found
}

/// The text of a part of a row, with what comes several times.
pub fn written(alloc: Global, text: &str) -> Pen {
    let mut pen = Pen::new(alloc);
    let (first, rest) = cut(text, "--- ");
    pen.put(named(first));
    for part in rest.split("--- ") {
        let (count, unit) = cut(part, "\n");
        let count = count.trim_end_matches(" times");
        add_times(&mut pen, count.parse::<usize>().unwrap_or(1), unit);
    }
    pen
}

/// Adds a text so many times.
fn add_times(pen: &mut Pen, count: usize, unit: &str) {
    for number in 0..count {
        add_numbered(pen, number, unit);
    }
}

/// Adds a text with a number in place of `№`, and as many blanks in place of `␣`.
fn add_numbered(pen: &mut Pen, number: usize, unit: &str) {
    for mark in unit.chars() {
        match mark {
            '№' => pen.value(number),
            '␣' => add_blanks(pen, number),
            _ => pen.push(mark),
        }
    }
}

fn add_blanks(pen: &mut Pen, count: usize) {
    for _ in 0..count {
        pen.put(" ");
    }
}
