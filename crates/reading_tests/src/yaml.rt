//! How YAML is shown. A tree is written with lines: `<a>1` is a scalar at line 1, `1[..]` a list,
//! `1{<a>1=..}` a mapping with its keys. A fault is its kind and its line.

use crate::cases::{Subject, assert_rows};
use crate::pen::Pen;
use crate::yaml_blocks::BLOCKS;
use crate::yaml_first_faults::{BYTES, CHARACTERS, FAULTS, NO_ENTRIES, PLACES};
use crate::yaml_flow::FLOW;
use crate::yaml_limits::LIMITS;
use crate::yaml_words::WORDS;
use yaml_subset::{Key, Tree, YamlFault, read};

#[cycle(show)]
fn show(pen: &mut Pen, tree: &Tree) {
    match tree {
        Tree::Scalar(line, text) => pen.quoted(text.as_slice(), *line),
        Tree::List(line, items) => {
            pen.value(*line);
            pen.put("[");
            show_items(pen, items);
            pen.put("]");
        }
        Tree::Map(line, pairs) => {
            pen.value(*line);
            pen.put("{");
            show_pairs(pen, pairs);
            pen.put("}");
        }
    }
}

#[cycle(show)]
fn show_items(pen: &mut Pen, items: &[Tree]) {
    let mut is_first = true;
    for item in items {
        if !is_first {
            pen.put(" ");
        }
        show(pen, item);
        is_first = false;
    }
}

#[cycle(show)]
fn show_pairs(pen: &mut Pen, pairs: &[(Key, Tree)]) {
    let mut is_first = true;
    for (key, value) in pairs {
        if !is_first {
            pen.put(" ");
        }
        pen.quoted(&key.text, key.line);
        pen.put("=");
        show(pen, value);
        is_first = false;
    }
}

// Texts, and how many items or keys they have.
const LENGTHS: &str = "\
- a¶- b¶ => 2 items
";

/// The tree of a text, if it has one; adds its fault otherwise.
pub(crate) fn tree_of<'a>(pen: &mut Pen, text: &'a [u8]) -> Option<Tree<'a>> {
    match read(pen.alloc, text) {
        Ok(tree) => return Some(tree),
        Err(YamlFault::Text(fault)) => {
            pen.value(fault.kind);
            pen.also(fault.line);
        }
        Err(YamlFault::NoMemory) => pen.lose(),
    }
    None
}

/// Adds the tree of a text, or its fault.
pub(crate) fn show_yaml(pen: &mut Pen, text: &[u8]) {
    if let Some(tree) = tree_of(pen, text) {
        show(pen, &tree);
    }
}

/// The same of the bytes that the characters of a text stand for.
pub(crate) fn show_bytes(pen: &mut Pen, text: &str) {
    let mut bytes = Vec::new(pen.alloc);
    for c in text.chars() {
        let Ok(byte) = u8::try_from(c) else {
            return pen.put("this is no byte");
        };
        if bytes.push(byte).is_err() {
            return pen.lose();
        }
    }
    show_yaml(pen, &bytes);
}

fn show_count(pen: &mut Pen, tree: &Tree) {
    if let Some(items) = tree.as_list() {
        pen.value(items.len());
        pen.put(" items");
    }
    if let Some(pairs) = tree.as_map() {
        pen.value(pairs.len());
        pen.put(" keys");
    }
}

/// Adds how many items or keys a text has, or its fault.
pub(crate) fn show_length(pen: &mut Pen, text: &str) {
    if let Some(tree) = tree_of(pen, text.as_bytes()) {
        show_count(pen, &tree);
    }
}

#[test]
fn yaml(rt: HostRuntime) {
    assert_rows(&rt, &Subject::Yaml, BLOCKS);
    assert_rows(&rt, &Subject::Yaml, FLOW);
    assert_rows(&rt, &Subject::Yaml, WORDS);
    assert_rows(&rt, &Subject::Yaml, LIMITS);
    assert_rows(&rt, &Subject::Length, LENGTHS);
    assert_rows(&rt, &Subject::Yaml, CHARACTERS);
    assert_rows(&rt, &Subject::Yaml, FAULTS);
    assert_rows(&rt, &Subject::Yaml, NO_ENTRIES);
    assert_rows(&rt, &Subject::Bytes, BYTES);
    assert_rows(&rt, &Subject::Bytes, PLACES);
}
