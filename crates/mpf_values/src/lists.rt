//! Lists.

ghost use Rattle.std.specs.Prelude.{◌≡◌, ◌≢◌, List, map, IfOk, IfErr};
ghost use Rattle.yaml_subset.specs.View.{node_view};
ghost use Rattle.mpf_values.specs.Lists.{Item as Listed, IsList};
ghost use Rattle.mpf_values.specs.Reading.{scalars_at, list_at};
ghost use Rattle.mpf_values.specs.View.{items_view, GivesList};

use crate::fault::ListFault;
use crate::items::{Item, text_items};
use std::alloc::Global;
use yaml_subset::tree::Tree;

// The items that nodes are, each of which is to be a scalar, without the empty ones.
fn scalar_items<'a>(alloc: Global, nodes: &'a [Tree]) -> Result<Vec<Item<'a>>, ListFault>
    ensures { GivesList (λ items. items_view items.items) result (scalars_at (map node_view nodes.now)) }
{
    let mut items = Vec::new(alloc);
    for node in nodes {
        let Some(text) = node.as_scalar() else {
            return Err(ListFault::BadValue);
        };
        if !text.is_empty() {
            let line = node.line();
            items.push(Item { line, text })?;
        }
    }
    Ok(items)
}

// The items of a list.
#[tactic(auto, unfolding(crate::specs::Reading::list_at))]
fn items_of<'a>(alloc: Global, tree: &'a Tree) -> Result<Vec<Item<'a>>, ListFault>
    ensures { GivesList (λ items. items_view items.items) result (list_at (node_view tree.now)) }
{
    if let Some(text) = tree.as_scalar() {
        let items = text_items(alloc, tree.line(), text)?;
        return Ok(items);
    }
    match tree.as_list() {
        Some(nodes) => scalar_items(alloc, nodes),
        None => Err(ListFault::BadValue),
    }
}

/// The items of a list, in order: of a YAML list its scalars, each with its own line, as they are
/// written; of a text the pieces between commas and blanks outside braces, all with the line of
/// the text. Empty items are dropped, so the empty text is an empty list.
///
/// Any other node is `BadValue`: a mapping, and a YAML list that holds a list or a mapping.
/// The error is `NoMemory` if memory runs out before that is found.
pub fn list<'a>(alloc: Global, tree: &'a Tree) -> Result<Vec<Item<'a>>, ListFault>
    // The result is the items of the list.
    ensures found { IfOk result (λ items. IsList (node_view tree.now) (items_view items.items)) }

    // The list has no others.
    ensures only { IfOk result (λ items. (others : List Listed) → IsList (node_view tree.now) others
        → others ≡ items_view items.items) }

    // What is refused, unless memory ran out, is no list.
    ensures refused { IfErr result (λ e. e ≢ ListFault.NoMemory → (items : List Listed)
        → IsList (node_view tree.now) items → ⊥) }

    // The result is what reading the list gives, unless memory ran out.
    ensures exact { GivesList (λ items. items_view items.items) result (list_at (node_view tree.now)) }
{
    items_of(alloc, tree)
}
