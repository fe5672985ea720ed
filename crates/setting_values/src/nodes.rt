//! What is below a key: the pairs of a mapping, or the nodes of a YAML list.
//!
//! A reader that expects a mapping asks [`pairs`] for its pairs, or [`few_pairs`] if it counts as a
//! list. One that expects a YAML list asks [`nodes`] for its nodes. Each gets them, or the fault to
//! report at the key: `BadValue` if the node is something else, and `Limit` if a list is too long. If
//! nothing is written after a key, that is a mapping without pairs and a list without nodes.

ghost use Rattle.std.specs.Prelude.{◌≡◌, [], map};
ghost use Rattle.yaml_subset.specs.View.{node_view, pair_view, option_slice};
ghost use Rattle.setting_values.specs.Below.{pairs_below, nodes_below};
ghost use Rattle.setting_values.specs.Gives.{GivesPairs, read_pairs};
ghost use Rattle.setting_values.specs.ValueAnswers.{GivesNodes, read_few_pairs, read_nodes};

use crate::kinds::Bounds;
use crate::lists::{MAX_ITEMS, check_count};
use config_faults::{BundleFaultKind, ConfigFault, Spot};
use std::alloc::Global;
use yaml_subset::tree::{Key, Tree};

/// The pairs of a mapping. A struct has them, since the borrow checker does not cover a `Result` of a
/// slice of values that borrow.
#[derive(Clone, Copy)]
pub struct MapPairs<'a, 't> {
    pub pairs: &'a [(Key<'t>, Tree<'t>)],
}

/// The nodes of a YAML list, in a struct for the same reason.
#[derive(Clone, Copy)]
pub struct ListNodes<'a, 't> {
    pub nodes: &'a [Tree<'t>],
}

// No pairs, for as long as a tree is there.
fn no_pairs<'a, 't: 'a>(_tree: &'a Tree<'t>) -> &'a [(Key<'t>, Tree<'t>)]
    ensures { result.now ≡ [] }
{
    &[]
}

// No nodes, for as long as a tree is there.
fn no_nodes<'a, 't: 'a>(_tree: &'a Tree<'t>) -> &'a [Tree<'t>]
    ensures { result.now ≡ [] }
{
    &[]
}

// The pairs of a mapping; the empty text is taken for a mapping without pairs.
#[tactic(auto, unfolding(crate::specs::Below::pairs_below))]
fn pairs_of<'a, 't: 'a>(tree: &'a Tree<'t>) -> Option<&'a [(Key<'t>, Tree<'t>)]>
    ensures { option_slice (map pair_view) result ≡ pairs_below (node_view tree.now) }
{
    if let Some(pairs) = tree.as_map() {
        return Some(pairs);
    }
    match tree.as_scalar() {
        Some([]) => Some(no_pairs(tree)),
        _ => None,
    }
}

// The nodes of a YAML list; the empty text is taken for a list without nodes.
#[tactic(auto, unfolding(crate::specs::Below::nodes_below))]
fn nodes_of<'a, 't: 'a>(tree: &'a Tree<'t>) -> Option<&'a [Tree<'t>]>
    ensures { option_slice (map node_view) result ≡ nodes_below (node_view tree.now) }
{
    if let Some(nodes) = tree.as_list() {
        return Some(nodes);
    }
    match tree.as_scalar() {
        Some([]) => Some(no_nodes(tree)),
        _ => None,
    }
}

/// The pairs of a mapping. The fault is BadValue at the spot.
pub fn pairs<'a, 't: 'a>(
    alloc: Global,
    spot: Spot<'_>,
    tree: &'a Tree<'t>,
) -> Result<MapPairs<'a, 't>, ConfigFault>
    ensures { GivesPairs result (read_pairs spot.entry tree.now) }
{
    match pairs_of(tree) {
        Some(pairs) => Ok(MapPairs { pairs }),
        None => Err(ConfigFault::Bundle(spot.fault(alloc, BundleFaultKind::BadValue)?)),
    }
}

/// The pairs of a mapping that counts as a list. A fault is at the spot: BadValue if it is no
/// mapping, or `Limit` if it has more than 1,024 pairs, whatever they are.
#[tactic(auto, unfolding(crate::specs::Reading::few_pairs_at))]
pub fn few_pairs<'a, 't: 'a>(
    alloc: Global,
    spot: Spot<'_>,
    tree: &'a Tree<'t>,
) -> Result<MapPairs<'a, 't>, ConfigFault>
    ensures { GivesPairs result (read_few_pairs spot.entry tree.now) }
{
    let below = pairs(alloc, spot, tree)?;
    check_count(
        alloc,
        spot,
        MAX_ITEMS,
        Bounds::AtLeast(0),
        below.pairs.len(),
    )?;
    Ok(below)
}

/// The nodes of a YAML list. The fault is BadValue at the spot if it is none, or that of their number.
#[tactic(auto, unfolding(crate::specs::Reading::list_nodes_at))]
pub fn nodes<'a, 't: 'a>(
    alloc: Global,
    spot: Spot<'_>,
    bounds: Bounds,
    tree: &'a Tree<'t>,
) -> Result<ListNodes<'a, 't>, ConfigFault>
    ensures { GivesNodes result (read_nodes spot.entry bounds tree.now) }
{
    let Some(nodes) = nodes_of(tree) else {
        return Err(ConfigFault::Bundle(spot.fault(alloc, BundleFaultKind::BadValue)?));
    };
    check_count(alloc, spot, MAX_ITEMS, bounds, nodes.len())?;
    Ok(ListNodes { nodes })
}
