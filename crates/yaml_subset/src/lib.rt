//! A subset of YAML 1.2.2, read into a tree whose nodes know their lines.
//!
//! A text is UTF-8, and its lines end with LF or CR LF. Blank lines, and lines with nothing but a comment, have no
//! content. The lines with content form blocks. A block is
//!
//! - a sequence: lines `- VALUE`, `-` or `- KEY: ..` at one indentation,
//! - a mapping: lines `KEY: VALUE` or `KEY:` at one indentation, with keys that differ,
//! - or one line with a value.
//!
//! If a line has no VALUE, its value is the block of the deeper lines below it. For an entry `KEY:` these may also be
//! items at its own indentation. If there are no such lines, the value is the empty text. `- KEY: ..` begins a mapping
//! at the column of KEY. A value on a line is a text without quotes or in single or double quotes, a list `[a, b]` or a
//! mapping `{k: v}`; a key is a text. A comment may follow. Everything else of YAML is refused:
//! anchors, aliases and tags, block scalars, scalars, lists and mappings on several lines, `? ` keys,
//! empty values in lists and mappings on one line, document markers, control characters and a byte
//! order mark. All values that are read are texts.
//!
//! [`read`] gives the tree of a text, which `specs/TreeOf.antt` defines, or the first fault.
#![tactic(auto)]

mod block;
mod entry;
pub mod fault;
mod flow;
pub mod keys;
mod line;
mod lines;
mod place;
mod quotes;
pub mod reader;
pub mod tree;
mod words;

pub use fault::{TextFault, TextFaultKind, YamlFault};
pub use reader::{read, read_hashed};
pub use tree::{Key, Tree};
