//! Rows that are answered again and again, with readers and writers that are slow, that fail at one call after
//! another, and that end early.

use crate::pen::Pen;
use crate::row::{Answers, Row, cut, written};
use crate::sink::Sink;
use crate::source::Source;
use std::alloc::Global;

/// As the number of a read: none.
const NONE: u64 = u64::MAX;

/// A row, and its texts as they are read.
#[derive(Clone, Copy)]
struct Walk<'a> {
    row: Row<'a>,
    bundle: &'a [u8],
    /// The certificate or the log.
    other: &'a [u8],
}

/// One of the texts of a row.
#[derive(Clone, Copy)]
enum Side {
    Bundle,
    Other,
}

/// What became of a row: its answer with what was written, if the writer keeps it, and how often each text was read.
#[derive(Drop)]
struct Found {
    answer: Pen,
    bundle_reads: u64,
    other_reads: u64,
}

impl<'a> Walk<'a> {
    fn text(self, side: Side) -> &'a [u8] {
        match side {
            Side::Bundle => self.bundle,
            Side::Other => self.other,
        }
    }

    /// The row with only the first bytes of a text.
    fn front(self, side: Side, len: usize) -> Walk<'a> {
        let text = self.text(side);
        let text = text.get(..len).unwrap_or(text);
        match side {
            Side::Bundle => Walk {
                bundle: text,
                ..self
            },
            Side::Other => Walk {
                other: text,
                ..self
            },
        }
    }

    /// Readers that give a byte at each read.
    fn readers(self) -> (Source<'a>, Source<'a>) {
        (Source::slow(self.bundle), Source::slow(self.other))
    }

    /// The same, but that of one text gives nothing at one read, and fails at another.
    fn readers_until(self, side: Side, stops_at: u64, fails_at: u64) -> (Source<'a>, Source<'a>) {
        let until = Source::slow_until(self.text(side), stops_at, fails_at);
        match side {
            Side::Bundle => (until, Source::slow(self.other)),
            Side::Other => (Source::slow(self.bundle), until),
        }
    }
}

impl Found {
    fn reads(&self, side: Side) -> u64 {
        match side {
            Side::Bundle => self.bundle_reads,
            Side::Other => self.other_reads,
        }
    }
}

/// The rows of a table that are not answered as they should. Each reader gives a byte at each read.
///
/// - With a writer that takes a byte at each write, the answer is that of the row.
/// - If a read fails, the answer is `Read`, and nothing is written. Each read is tried, that after the last byte too.
/// - If a read gives nothing, the answer is that to the bytes before it. Each read is tried.
/// - If a write fails, or takes nothing, the answer is `Write`. Each write is tried.
pub fn wrong_walks<A: Answers>(alloc: Global, answers: &A, table: &str) -> Pen {
    let mut wrong = Pen::new(alloc);
    let (_, rows) = cut(table, "\n=== ");
    for row in rows.split("\n=== ") {
        walk_row(&mut wrong, answers, Row::of(row));
    }
    wrong
}

fn walk_row<A: Answers>(wrong: &mut Pen, answers: &A, row: Row<'_>) {
    let bundle = written(wrong.alloc, row.bundle);
    let other = written(wrong.alloc, row.other);
    let walk = Walk {
        row,
        bundle: bundle.end().as_bytes(),
        other: other.end().as_bytes(),
    };
    let (verdict, printed) = cut(row.wanted, "\n");
    let full = if printed.is_empty() { verdict } else { "Write" };
    write_to(
        wrong,
        answers,
        walk,
        Sink::Slow(Vec::new(wrong.alloc)),
        row.wanted,
    );
    write_to(wrong, answers, walk, Sink::Full, full);
    fail_writes(wrong, answers, walk, verdict);
    for side in [Side::Bundle, Side::Other] {
        fail_reads(wrong, answers, walk, side);
        stop_reads(wrong, answers, walk, side);
    }
}

/// Writes to this writer.
fn write_to<A: Answers>(
    wrong: &mut Pen,
    answers: &A,
    walk: Walk<'_>,
    mut sink: Sink,
    wanted: &str,
) {
    let found = answer_of(wrong.alloc, answers, walk.row, walk.readers(), &mut sink);
    add_if_wrong(wrong, walk.row, &found, wanted);
}

/// Writes to writers that fail at one write after another, until there are not so many.
fn fail_writes<A: Answers>(wrong: &mut Pen, answers: &A, walk: Walk<'_>, verdict: &str) {
    for write in 1..=u64::MAX {
        let mut sink = Sink::failing_at(write);
        let found = answer_of(wrong.alloc, answers, walk.row, walk.readers(), &mut sink);
        if sink.writes() < write {
            return add_if_wrong(wrong, walk.row, &found, verdict);
        }
        add_if_wrong(wrong, walk.row, &found, "Write");
    }
}

/// Reads a text by readers that fail at one read after another, until there are not so many.
fn fail_reads<A: Answers>(wrong: &mut Pen, answers: &A, walk: Walk<'_>, side: Side) {
    for read in 1..=u64::MAX {
        let found = kept_answer(
            wrong.alloc,
            answers,
            walk.row,
            walk.readers_until(side, NONE, read),
        );
        if found.reads(side) < read {
            return add_if_wrong(wrong, walk.row, &found, walk.row.wanted);
        }
        add_if_wrong(wrong, walk.row, &found, "Read\n");
    }
}

/// Reads a text by readers that give nothing at one read after another.
fn stop_reads<A: Answers>(wrong: &mut Pen, answers: &A, walk: Walk<'_>, side: Side) {
    for (len, _) in walk.text(side).iter().enumerate() {
        let stopped = walk.readers_until(side, len as u64 + 1, NONE);
        let found = kept_answer(wrong.alloc, answers, walk.row, stopped);
        let wanted = kept_answer(
            wrong.alloc,
            answers,
            walk.row,
            walk.front(side, len).readers(),
        );
        add_if_wrong(wrong, walk.row, &found, wanted.answer.end());
    }
}

/// The answer to a row, with what was written.
fn kept_answer<'a, A: Answers>(
    alloc: Global,
    answers: &A,
    row: Row<'_>,
    readers: (Source<'a>, Source<'a>),
) -> Found {
    answer_of(
        alloc,
        answers,
        row,
        readers,
        &mut Sink::Kept(Vec::new(alloc)),
    )
}

/// The answer to a row with this writer.
fn answer_of<'a, A: Answers>(
    alloc: Global,
    answers: &A,
    row: Row<'_>,
    (mut bundle, mut other): (Source<'a>, Source<'a>),
    sink: &mut Sink,
) -> Found {
    let mut answer = Pen::new(alloc);
    answers.answer(&mut answer, &row, &mut bundle, &mut other, sink);
    sink.show_kept(&mut answer);
    Found {
        answer,
        bundle_reads: bundle.reads(),
        other_reads: other.reads(),
    }
}

/// Adds the answer to a row, if another one is wanted.
fn add_if_wrong(wrong: &mut Pen, row: Row<'_>, found: &Found, wanted: &str) {
    if found.answer.end() != wanted {
        wrong.put(row.bundle);
        wrong.put(row.other);
        wrong.put("has the answer ");
        wrong.put(found.answer.end());
        wrong.put("\nin place of ");
        wrong.put(wanted);
    }
}
