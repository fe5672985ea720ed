//! Blocks of lines.

ghost use Rattle.std.specs.Prelude.{◌≡◌, ℕ, ◌≤◌, List, [], ◌∷◌, ◌++◌, length, map, drop, get_or, Option, Some, None};
ghost use Rattle.std.specs.Prelude.{IfOk};
ghost use Rattle.yaml_subset.specs.Keys.{copies_view, HasNoneOrAll};
ghost use Rattle.yaml_subset.specs.Flow.{keys_of};
ghost use Rattle.yaml_subset.specs.Node.{scalar};
ghost use Rattle.yaml_subset.specs.Reading.{hangs, chunks, groups_of, hanging_len, misplaced_line, closed_at};
ghost use Rattle.yaml_subset.specs.Reading.{entry_value_at, pair_at, mapping_at, inner, sequence_item_at, sequence_at};
ghost use Rattle.yaml_subset.specs.Reading.{tree_at};
ghost use Rattle.yaml_subset.specs.Placed.{GivesOrHalts};
ghost use Rattle.yaml_subset.specs.View.{node_view, pair_view};
ghost use Rattle.yaml_subset.specs.ParserViews.{line_view, lines_view, node_option_view};

use crate::entry::{LineHead, head_of, inline, key_of};
use crate::fault::TextFaultKind;
use crate::keys::{KeyHashing, KeySet, is_too_long, no_keys, take_next};
use crate::line::TextLine;
use crate::place::Halt;
use crate::tree::{Key, Tree, Word};
use std::alloc::Global;
use yaml_bytes::{
    before_colon, begins_blank, begins_item, behind_blanks, behind_dash, behind_spaces, is_over,
    spaces_len,
};

// Whether a line hangs from an entry, or else from an item, at an indentation.
fn hangs(entry: bool, indent: usize, line: &TextLine) -> bool
    ensures { result ≡ hangs entry indent (line_view line.now) }
{
    indent < line.indent || (entry && line.indent == indent && begins_item(line.text()))
}

// How many lines at the front hang.
fn hanging_len(entry: bool, indent: usize, lines: &[TextLine]) -> usize
    ensures within { result ≤ length lines.now }
    ensures value { result ≡ hanging_len (hangs entry indent) (lines_view lines.now) }
{
    let mut len = 0;
    let mut rest = lines;
    while let [line, after @ ..] = rest {
        if !hangs(entry, indent, line) {
            break;
        }
        rest = after;
        len += 1;
    }
    len
}

// The lines at the front that hang, and the lines after them.
fn split_below<'a, 'b>(
    entry: bool,
    indent: usize,
    lines: &'a [TextLine<'b>],
) -> (&'a [TextLine<'b>], &'a [TextLine<'b>])
    ensures within { length result.0.now ≤ length lines.now }
    ensures after { result.1.now ≡ drop (length result.0.now) lines.now }
    ensures parts { chunks (hangs entry indent) (lines_view lines.now)
        ≡ (lines_view result.0.now, groups_of (hangs entry indent) (lines_view result.1.now)) }
{
    lines.split_at(hanging_len(entry, indent, lines))
}

// How many lines do not hang: so many entries or items come after the first.
fn apart_count(entry: bool, indent: usize, lines: &[TextLine]) -> usize
    ensures { result ≤ length lines.now }
{
    lines
        .iter()
        .filter(|line| !hangs(entry, indent, line))
        .count()
}

// The line of a block at a place, where the first is given apart from the others.
fn line_at<'a>(first: &TextLine<'a>, others: &[TextLine<'a>], at: usize) -> TextLine<'a>
    requires { at ≤ length others.now }
    ensures { result ≡ get_or (first.now ∷ others.now) at first.now }
{
    if at == 0 { *first } else { others[at - 1] }
}

// The fault of a line that has no place in its block.
fn misplaced_line(around: Option<usize>, line: &TextLine) -> Halt
    ensures { result
        ≡ Halt.At
        (record {
          kind = misplaced_line around (line_view line.now);
          line = line.now.number;
          bytes_left = length (drop line.now.indent line.now.raw.now);
        }) }
{
    let kind = match around {
        None => TextFaultKind::Indent,
        Some(around) => if line.indent == around {
            TextFaultKind::NotInSubset
        } else {
            TextFaultKind::Indent
        },
    };
    line.fault(kind)
}

// A value that is on a line, below which no line may be.
#[tactic(auto, unfolding(crate::specs::Reading::closed_at))]
fn close_block<'a>(
    around: Option<usize>,
    value: Tree<'a>,
    below: &[TextLine],
) -> Result<Tree<'a>, Halt>
    ensures { GivesOrHalts node_view result (closed_at around (node_view value.entry) (lines_view below.now)) }
{
    match below {
        [] => Ok(value),
        [first, ..] => Err(misplaced_line(around, first)),
    }
}

// The empty text at a line.
fn empty<'a>(number: u32) -> Tree<'a>
    ensures { node_view result ≡ scalar number [] }
{
    Tree::Scalar(number, Word::Borrowed(&[]))
}

// The value of an entry or item at an indentation: on its line, or the block below it, or the empty
// text.
#[cycle(block)]
#[tactic(auto, unfolding(crate::specs::Reading::entry_value_at))]
fn value<'a>(
    alloc: Global,
    hashing: KeyHashing,
    number: u32,
    indent: usize,
    inline: Option<Tree<'a>>,
    below: &[TextLine<'a>],
    levels: u8,
) -> Result<Tree<'a>, Halt>
    ensures { GivesOrHalts node_view result
        (entry_value_at (tree_at levels 8) number indent (node_option_view inline.entry) (lines_view below.now)) }
{
    match inline {
        Some(value) => close_block(Some(indent), value, below),
        None => match below {
            [] => {
                let value = empty(number);
                Ok(value)
            }
            [first, others @ ..] => block(alloc, hashing, Some(indent), first, others, levels),
        },
    }
}

// A line with the lines that hang from it, as the next pair of a mapping after these pairs. The set has
// their keys, or none.
#[cycle(block)]
#[tactic(auto, unfolding(crate::specs::Reading::pair_at, crate::specs::Reading::pair_from))]
fn pair<'a>(
    alloc: Global,
    hashing: KeyHashing,
    around: Option<usize>,
    indent: usize,
    line: &TextLine<'a>,
    below: &[TextLine<'a>],
    pairs: &[(Key<'a>, Tree<'a>)],
    keys: &mut KeySet<'a>,
    levels: u8,
) -> Result<(Key<'a>, Tree<'a>), Halt>
    requires { HasNoneOrAll (copies_view keys.old) (keys_of (map pair_view pairs.now)) }
    ensures value { GivesOrHalts pair_view result
        (pair_at 8 (tree_at levels 8) around indent (keys_of (map pair_view pairs.now))
        (record { head = line_view line.now; below = lines_view below.now })) }
    ensures known { IfOk result (λ pair. HasNoneOrAll (copies_view keys.new)
        (keys_of (map pair_view pairs.now) ++ (pair_view pair).key ∷ [])) }
{
    let number = line.number;
    if line.indent != indent {
        return Err(misplaced_line(around, line));
    }
    let (key, after) = match key_of(alloc, number, line.text())? {
        Some(found) => found,
        None => return Err(line.fault(TextFaultKind::NotInSubset)),
    };
    let fresh = take_next(keys, pairs, &key)?;
    if !fresh {
        return Err(line.fault(TextFaultKind::DuplicateKey));
    }
    if is_too_long(before_colon(line.text(), after)) {
        return Err(Halt::at(TextFaultKind::NotInSubset, number, after.len() + 1));
    }
    let inline = inline(alloc, hashing, number, after)?;
    let value = value(alloc, hashing, number, indent, inline, below, levels)?;
    Ok((
        Key {
            line: number,
            text: key,
        },
        value,
    ))
}

// The mapping that lines are.
#[cycle(block)]
#[tactic(auto, unfolding(crate::specs::Reading::mapping_at))]
fn mapping<'a>(
    alloc: Global,
    hashing: KeyHashing,
    around: Option<usize>,
    first: &TextLine<'a>,
    others: &[TextLine<'a>],
    levels: u8,
) -> Result<Tree<'a>, Halt>
    ensures { GivesOrHalts node_view result
        (mapping_at 8 (tree_at levels 8) around (line_view first.now) (lines_view others.now)) }
{
    let indent = first.indent;
    let mut keys = no_keys(alloc, hashing);
    let mut pairs = Vec::with_capacity(alloc, 1 + apart_count(true, indent, others))?;
    let mut at = 0;
    while at <= others.len() {
        let line = line_at(first, others, at);
        let (below, _) = split_below(true, indent, &others[at..]);
        let next = pair(
            alloc, hashing, around, indent, &line, below, &pairs, &mut keys, levels,
        )?;
        pairs.push(next)?;
        at += 1 + below.len();
    }
    pairs.shrink_to_fit();
    Ok(Tree::Map(first.number, pairs))
}

// What comes after the `-` of a line and the spaces there, as a line at its own column.
fn inner<'a>(line: &TextLine<'a>, after: &[u8]) -> TextLine<'a>
    requires { drop line.now.indent line.now.raw.now ≡ 45 ∷ after.now }
    ensures { line_view result ≡ inner (line_view line.now) after.now }
{
    TextLine {
        number: line.number,
        indent: line.indent + 1 + spaces_len(after),
        raw: line.raw,
    }
}

// A line with the deeper lines after it, as the next item of a sequence.
#[cycle(block)]
#[tactic(auto, unfolding(crate::specs::Reading::sequence_item_at, crate::specs::Reading::item_from, crate::specs::Reading::item_with))]
fn item<'a>(
    alloc: Global,
    hashing: KeyHashing,
    around: Option<usize>,
    indent: usize,
    line: &TextLine<'a>,
    below: &[TextLine<'a>],
    levels: u8,
) -> Result<Tree<'a>, Halt>
    ensures { GivesOrHalts node_view result
        (sequence_item_at 8 (tree_at levels 8) around indent
        (record { head = line_view line.now; below = lines_view below.now })) }
{
    let number = line.number;
    if line.indent != indent {
        return Err(misplaced_line(around, line));
    }
    let after = match behind_dash(line.text()) {
        Some(after) => after,
        None => return Err(line.fault(TextFaultKind::NotInSubset)),
    };
    let rest = behind_blanks(after);
    if is_over(rest) {
        return value(alloc, hashing, number, indent, None, below, levels);
    }
    match head_of(alloc, hashing, number, rest)? {
        LineHead::Item(_) => Err(Halt::at(TextFaultKind::NotInSubset, number, rest.len())),
        LineHead::Alone(node) => value(alloc, hashing, number, indent, Some(node), below, levels),
        LineHead::Entry(_, _) => {
            let key = behind_spaces(after);
            if begins_blank(key) {
                return Err(Halt::at(TextFaultKind::Tab, number, key.len()));
            }
            block(
                alloc,
                hashing,
                Some(indent),
                &inner(line, after),
                below,
                levels,
            )
        }
    }
}

// The sequence that lines are.
#[cycle(block)]
#[tactic(auto, unfolding(crate::specs::Reading::sequence_at))]
fn sequence<'a>(
    alloc: Global,
    hashing: KeyHashing,
    around: Option<usize>,
    first: &TextLine<'a>,
    others: &[TextLine<'a>],
    levels: u8,
) -> Result<Tree<'a>, Halt>
    ensures { GivesOrHalts node_view result
        (sequence_at 8 (tree_at levels 8) around (line_view first.now) (lines_view others.now)) }
{
    let indent = first.indent;
    let mut items = Vec::with_capacity(alloc, 1 + apart_count(false, indent, others))?;
    let mut at = 0;
    while at <= others.len() {
        let line = line_at(first, others, at);
        let (below, _) = split_below(false, indent, &others[at..]);
        let next = item(alloc, hashing, around, indent, &line, below, levels)?;
        items.push(next)?;
        at += 1 + below.len();
    }
    items.shrink_to_fit();
    Ok(Tree::List(first.number, items))
}

// The block that lines are, within a block at an indentation or within none, with at most so many
// sequences and mappings one inside the other.
#[cycle(block)]
#[tactic(auto, unfolding(crate::specs::Reading::tree_at, crate::specs::Reading::block_at, crate::specs::Reading::block_from, crate::specs::Reading::deep_from))]
fn block<'a>(
    alloc: Global,
    hashing: KeyHashing,
    around: Option<usize>,
    first: &TextLine<'a>,
    others: &[TextLine<'a>],
    levels: u8,
) -> Result<Tree<'a>, Halt>
    ensures { GivesOrHalts node_view result (tree_at levels 8 around (line_view first.now ∷ lines_view others.now)) }
{
    match head_of(alloc, hashing, first.number, first.text())? {
        LineHead::Alone(value) => close_block(around, value, others),
        _ if levels == 0 => Err(first.fault(TextFaultKind::TooDeep)),
        LineHead::Item(_) => sequence(alloc, hashing, around, first, others, levels - 1),
        LineHead::Entry(_, _) => mapping(alloc, hashing, around, first, others, levels - 1),
    }
}

/// The tree of lines with at most so many sequences and mappings one inside the other.
#[tactic(auto, unfolding(crate::specs::Reading::tree_at, crate::specs::Reading::block_at))]
pub fn tree<'a>(
    alloc: Global,
    hashing: KeyHashing,
    lines: &[TextLine<'a>],
    levels: u8,
) -> Result<Tree<'a>, Halt>
    ensures { GivesOrHalts node_view result (tree_at levels 8 None (lines_view lines.now)) }
{
    match lines {
        [] => Ok(Tree::Map(1, Vec::new(alloc))),
        [first, others @ ..] => block(alloc, hashing, None, first, others, levels),
    }
}
