//! The lines of a text, what the bytes of a YAML line are, passes over them, the number that digits
//! write, and hashing of texts.
//!
//! The functions find the end of a line, blanks, the marks of items and entries, words without quotes,
//! and numbers in decimal digits. All passes go from the first byte to the last, except that of
//! `trim_blanks`, which goes the other way. `flow` says whether a line is read within brackets or braces.
//! The functions take no memory and find no faults: each has an answer for every text.
//! `specs/Lines.antt` says what a line is, `specs/Bytes.antt` what a byte is, `specs/Plain.antt` what
//! blanks and words are, wherever they are, `specs/Scanning.antt` what a pass finds,
//! `specs/Numbers.antt` which number digits write, and `specs/Hashing.antt` where a hasher starts.
//! `specs/Results.antt` and `specs/View.antt` have the words for results and optional parts that the
//! crates above share.
#![tactic(auto)]

mod bytes;
mod hashing;
mod lines;
mod numbers;
mod scan;

pub use bytes::{
    begins_bare_colon, begins_blank, begins_flow_indicator, begins_gap, begins_item, begins_word,
    is_blank, is_document_marker, is_flow_indicator, is_forbidden, is_mark, is_over,
};
pub use hashing::SeededHashing;
pub use lines::split_line;
pub use numbers::number;
pub use scan::{
    before_colon, behind_blanks, behind_dash, behind_spaces, characters, spaces_len, split_word,
    trim_blanks,
};
