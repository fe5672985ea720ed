//! The tree of a text.

ghost use Rattle.std.specs.Prelude.{◌≡◌, ◌≢◌, ℕ, IfOk, IfErr};
ghost use Rattle.yaml_subset.specs.Node.{Node};
ghost use Rattle.yaml_subset.specs.TreeOf.{IsTreeOf, IsTextAbove};
ghost use Rattle.yaml_subset.specs.Reading.{read_at};
ghost use Rattle.yaml_subset.specs.View.{node_view, GivesTree};

use crate::block::tree;
use crate::fault::{TextFaultKind, YamlFault};
use crate::keys::KeyHashing;
use crate::lines::content_lines;
use crate::place::Halt;
use crate::tree::Tree;
use std::alloc::Global;

/// The most bytes that a text may have: 1 MiB.
const MAX_BYTES: usize = 1_048_576;

/// The most sequences and mappings of lines that may be one inside the other, the one of the text
/// itself among them.
const MAX_LEVELS: u8 = 32;

// The tree of a text, or its first fault.
#[tactic(auto, unfolding(crate::specs::Reading::read_at))]
fn read_exactly<'a>(
    alloc: Global,
    hashing: KeyHashing,
    text: &'a [u8],
) -> Result<Tree<'a>, YamlFault>
    ensures { GivesTree node_view result (read_at text.now) }
{
    if text.len() > MAX_BYTES {
        return Err(YamlFault::at(TextFaultKind::TooLong, 1));
    }
    let text_lines = content_lines(alloc, text)?;
    match tree(alloc, hashing, &text_lines.lines, MAX_LEVELS) {
        Ok(tree) => match text_lines.fault {
            None => Ok(tree),
            Some(fault) => Err(YamlFault::at(fault.kind, fault.line)),
        },
        Err(Halt::NoMemory) => Err(YamlFault::NoMemory),
        Err(Halt::At(fault)) => {
            let first = fault.or_known(text_lines.fault);
            Err(YamlFault::at(first.kind, first.line))
        }
    }
}

/// The tree of a text. If no line has content, it is a mapping without pairs, at line 1.
///
/// # Errors
///
/// `NoMemory`, or the first fault: that of the first line that has one, and on that line the
/// leftmost. Bytes that are not UTF-8, or a character that no line may have, come before another
/// fault at the same place. A text of more than 1 MiB is `TooLong` at line 1, whatever else is
/// wrong with it.
pub fn read(alloc: Global, text: &[u8]) -> Result<Tree<'_>, YamlFault>
    // What is read is the tree of the text.
    ensures found { IfOk result (λ tree. IsTreeOf 32 8 text.now (node_view tree)) }

    // The text has no other tree, however many levels are allowed.
    ensures only { IfOk result (λ tree. (levels depth : ℕ) (t : Node) → IsTreeOf levels depth text.now t
        → t ≡ node_view tree) }

    // A text that is refused has no tree within the limits.
    ensures refused { IfErr result (λ e. e ≢ YamlFault.NoMemory → (levels depth : ℕ) (t : Node)
        → IsTreeOf levels depth text.now t → IsTextAbove levels depth text.now) }

    // Which fault it is, and its line, is what reading line by line gives.
    ensures exact { GivesTree node_view result (read_at text.now) }
{
    read_hashed(alloc, KeyHashing::of(text), text)
}

/// The same, with keys hashed as the caller says: if many texts are read, one SipHash of all of
/// them is enough.
///
/// # Errors
///
/// As [`read`].
pub fn read_hashed<'a>(
    alloc: Global,
    hashing: KeyHashing,
    text: &'a [u8],
) -> Result<Tree<'a>, YamlFault>
    // What is read is the tree of the text.
    ensures found { IfOk result (λ tree. IsTreeOf 32 8 text.now (node_view tree)) }

    // The text has no other tree, however many levels are allowed.
    ensures only { IfOk result (λ tree. (levels depth : ℕ) (t : Node) → IsTreeOf levels depth text.now t
        → t ≡ node_view tree) }

    // A text that is refused has no tree within the limits.
    ensures refused { IfErr result (λ e. e ≢ YamlFault.NoMemory → (levels depth : ℕ) (t : Node)
        → IsTreeOf levels depth text.now t → IsTextAbove levels depth text.now) }

    // Which fault it is, and its line, is what reading line by line gives.
    ensures exact { GivesTree node_view result (read_at text.now) }
{
    read_exactly(alloc, hashing, text)
}
