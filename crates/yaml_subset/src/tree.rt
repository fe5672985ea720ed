//! What a text says.

ghost use Rattle.std.specs.Prelude.{◌≡◌, IfOk, map};
ghost use Rattle.std.specs.Cow.{cow_slice_items};
ghost use Rattle.yaml_subset.specs.Node.{scalar};
ghost use Rattle.yaml_subset.specs.View.{word_bytes, node_view, pair_view, line_of, text_in, items_in, pairs_in};
ghost use Rattle.yaml_subset.specs.View.{option_slice};

use std::alloc::{AllocError, Global};
use std::borrow::CowSlice;

/// A key, with the line where it begins. Its text is a part of what was read, and has bytes of its own
/// only if an escape is written in it.
#[derive(Drop)]
pub struct Key<'t> {
    pub line: u32,
    pub text: CowSlice<'t, u8>,
}

/// The text of a scalar: a part of what was read, or bytes of its own if an escape is written in it.
/// Few texts have one: for their sake no node is larger than a list.
#[derive(Drop)]
pub enum Word<'t> {
    Borrowed(&'t [u8]),
    Owned(Box<Vec<u8>>),
}

impl<'t> Word<'t> {
    /// This text. Fails if memory ran out.
    fn new(alloc: Global, text: CowSlice<'t, u8>) -> Result<Word<'t>, AllocError>
        ensures { IfOk result (λ word. word_bytes word ≡ cow_slice_items text.entry) }
    {
        match text {
            CowSlice::Borrowed(text) => Ok(Word::Borrowed(text)),
            CowSlice::Owned(text) => Ok(Word::Owned(Box::new(alloc, text)?)),
        }
    }

    /// The bytes of the text.
    pub fn as_slice(&self) -> &[u8]
        ensures { result.now ≡ word_bytes self.now }
    {
        match self {
            Word::Borrowed(text) => text,
            Word::Owned(text) => text,
        }
    }
}

/// A node of a text, with the line where it begins, counted from 1. If no value
/// is written, that is the line of the key or `-` in front of it.
#[derive(Drop)]
pub enum Tree<'t> {
    /// A text; the empty text if there is no value.
    Scalar(u32, Word<'t>),
    /// Nodes in order.
    List(u32, Vec<Tree<'t>>),
    /// Keys with their values, in order; no key comes twice.
    Map(u32, Vec<(Key<'t>, Tree<'t>)>),
}

impl<'t> Tree<'t> {
    /// The node of a text at a line. Fails if memory ran out.
    pub fn scalar(alloc: Global, line: u32, text: CowSlice<'t, u8>) -> Result<Tree<'t>, AllocError>
        ensures { IfOk result (λ tree. node_view tree ≡ scalar line (cow_slice_items text.entry)) }
    {
        Ok(Tree::Scalar(line, Word::new(alloc, text)?))
    }

    /// The line where the node begins.
    pub fn line(&self) -> u32
        ensures { result ≡ line_of (node_view self.now) }
    {
        match self {
            Tree::Scalar(line, _) => *line,
            Tree::List(line, _) => *line,
            Tree::Map(line, _) => *line,
        }
    }

    /// The text of a scalar.
    pub fn as_scalar(&self) -> Option<&[u8]>
        ensures { option_slice (λ text. text) result ≡ text_in (node_view self.now) }
    {
        match self {
            Tree::Scalar(_, text) => Some(text.as_slice()),
            _ => None,
        }
    }

    /// The nodes of a list.
    pub fn as_list(&self) -> Option<&[Tree<'t>]>
        ensures { option_slice (map node_view) result ≡ items_in (node_view self.now) }
    {
        match self {
            Tree::List(_, items) => Some(items),
            _ => None,
        }
    }

    /// The pairs of a mapping.
    pub fn as_map(&self) -> Option<&[(Key<'t>, Tree<'t>)]>
        ensures { option_slice (map pair_view) result ≡ pairs_in (node_view self.now) }
    {
        match self {
            Tree::Map(_, pairs) => Some(pairs),
            _ => None,
        }
    }
}
