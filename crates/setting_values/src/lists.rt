//! Values that are lists of texts.

ghost use Rattle.std.specs.Prelude.{◌≡◌, not, length, map, filter, None};
ghost use Rattle.yaml_subset.specs.View.{node_view, items_in};
ghost use Rattle.setting_values.specs.Kinds.{fits};
ghost use Rattle.setting_values.specs.Reading.{counts};
ghost use Rattle.setting_values.specs.KindView.{bounds_view};
ghost use Rattle.setting_values.specs.Gives.{GivesNames, read_listed_names};
ghost use Rattle.setting_values.specs.ValueAnswers.{GivesCheck, GivesItem, GivesItems, GivesName, GivesHandler};
ghost use Rattle.setting_values.specs.ValueAnswers.{GivesHandlers, check_of_count, read_items, read_item_name};
ghost use Rattle.setting_values.specs.ValueAnswers.{read_item_handler, read_node_item, read_node_name};
ghost use Rattle.setting_values.specs.ValueAnswers.{read_node_handler, read_node_names, read_node_handlers};
ghost use Rattle.setting_values.specs.ValueAnswers.{read_one_name, read_one_handler, read_listed_handlers};

use crate::items::{each, each_counted};
use crate::kinds::Bounds;
use crate::scalars::{handler_of, is_name, name_of};
use crate::values::{Handler, Name};
use config_faults::{BundleFaultKind, ConfigFault, Spot};
use mpf_values::{Event, Item, ListFault, event, list};
use std::alloc::Global;
use yaml_subset::tree::Tree;

/// The most items of a list of a setting.
pub const MAX_ITEMS: usize = 1024;

impl Bounds {
    // Whether a list may have so many items.
    fn fits(self, count: usize) -> bool
        ensures { result ≡ fits (bounds_view self) count }
    {
        match self {
            Bounds::AtLeast(least) => least <= count,
            Bounds::Between(least, greatest) => least <= count && count <= greatest,
        }
    }
}

/// A fault at the spot, if a list may not have so many items: `Limit` above the most that it may
/// have, and `BadValue` outside the bounds.
#[tactic(auto, unfolding(crate::specs::Reading::count_at))]
pub fn check_count(
    alloc: Global,
    spot: Spot<'_>,
    most: usize,
    bounds: Bounds,
    count: usize,
) -> Result<(), ConfigFault>
    ensures { GivesCheck result (check_of_count spot.entry most bounds count) }
{
    if count > most {
        return Err(ConfigFault::Bundle(spot.fault(alloc, BundleFaultKind::Limit)?));
    }
    if !bounds.fits(count) {
        return Err(ConfigFault::Bundle(spot.fault(alloc, BundleFaultKind::BadValue)?));
    }
    Ok(())
}

// How many items a YAML list has, good and bad: empty texts are none.
fn item_count(nodes: &[Tree]) -> usize
    ensures { result ≡ length (filter counts (map node_view nodes.now)) }
{
    let mut count = 0;
    for node in nodes {
        if !is_empty(node) {
            count += 1;
        }
    }
    count
}

/// Whether a node is the empty text.
#[tactic(auto, unfolding(crate::specs::Reading::counts))]
pub fn is_empty(node: &Tree) -> bool
    ensures { not result ≡ counts (node_view node.now) }
{
    node.as_scalar().is_some_and(|text| text.is_empty())
}

// The items of a list that is no YAML list. A fault stands at the spot: Limit if there are too
// many, whatever they are; BadValue if the value is no list, or the bounds do not let it have so
// many.
#[tactic(auto, unfolding(crate::specs::Reading::list_items_at))]
fn text_items<'a>(
    alloc: Global,
    spot: Spot<'_>,
    most: usize,
    bounds: Bounds,
    value: &'a Tree,
) -> Result<Vec<Item<'a>>, ConfigFault>
    requires { items_in (node_view value.now) ≡ None }
    ensures { GivesItems result (read_items spot.entry most bounds value.now) }
{
    let items = match list(alloc, value) {
        Ok(items) => items,
        Err(ListFault::NoMemory) => return Err(ConfigFault::NoMemory),
        Err(ListFault::BadValue) => {
            return Err(ConfigFault::Bundle(spot.fault(alloc, BundleFaultKind::BadValue)?));
        }
    };
    check_count(alloc, spot, most, bounds, items.len())?;
    Ok(items)
}

// The item that a node of a YAML list is. The fault is BadValue at the spot.
// Inlined like `item_name`.
#[inline(always)]
fn node_item<'a>(alloc: Global, spot: Spot<'_>, node: &'a Tree) -> Result<Item<'a>, ConfigFault>
    ensures { GivesItem result (read_node_item spot.entry node.now) }
{
    match node.as_scalar() {
        Some(text) => Ok(Item {
            line: node.line(),
            text,
        }),
        None => Err(ConfigFault::Bundle(spot.fault(alloc, BundleFaultKind::BadValue)?)),
    }
}

// The name that an item of a list is. The fault is BadValue at the spot.
// Inlined: it is done for each item of a list, and what it answers is large.
#[inline(always)]
#[tactic(auto, unfolding(crate::specs::Reading::written_in))]
fn item_name(alloc: Global, spot: Spot<'_>, item: Item<'_>) -> Result<Name, ConfigFault>
    ensures { GivesName result (read_item_name spot.entry item.entry) }
{
    if !is_name(item.text) {
        return Err(ConfigFault::Bundle(spot.fault(alloc, BundleFaultKind::BadValue)?));
    }
    let name = name_of(alloc, item.line, item.text)?;
    Ok(name)
}

// The handled event that an item of a list is. The fault is BadValue at the spot.
// Inlined like `item_name`.
#[inline(always)]
#[tactic(auto, unfolding(crate::specs::Reading::handled_in))]
fn item_handler(alloc: Global, spot: Spot<'_>, item: Item<'_>) -> Result<Handler, ConfigFault>
    ensures { GivesHandler result (read_item_handler spot.entry item.entry) }
{
    let Ok(event) = event(item.text) else {
        return Err(ConfigFault::Bundle(spot.fault(alloc, BundleFaultKind::BadValue)?));
    };
    let handler = handler_of(alloc, item.line, event)?;
    Ok(handler)
}

// The names in a YAML list. Its items are counted first, and then read where they stand: there is no
// list of them.
fn node_names(
    alloc: Global,
    spot: Spot<'_>,
    most: usize,
    bounds: Bounds,
    nodes: &[Tree],
) -> Result<Vec<Name>, ConfigFault>
    ensures { GivesNames result (read_node_names spot.entry most bounds nodes.now) }
{
    let count = item_count(nodes);
    check_count(alloc, spot, most, bounds, count)?;
    each_counted(
        alloc,
        count,
        nodes,
        |node|
            ensures { GivesName result (read_node_name spot.entry node.now) }
        { item_name(alloc, spot, node_item(alloc, spot, node)?) },
    )
}

// The handled events in a YAML list, likewise.
fn node_handlers(
    alloc: Global,
    spot: Spot<'_>,
    bounds: Bounds,
    nodes: &[Tree],
) -> Result<Vec<Handler>, ConfigFault>
    ensures { GivesHandlers result (read_node_handlers spot.entry bounds nodes.now) }
{
    let count = item_count(nodes);
    check_count(alloc, spot, MAX_ITEMS, bounds, count)?;
    each_counted(
        alloc,
        count,
        nodes,
        |node|
            ensures { GivesHandler result (read_node_handler spot.entry node.now) }
        { item_handler(alloc, spot, node_item(alloc, spot, node)?) },
    )
}

// The list of one name, if a list may have one item.
fn one_name(
    alloc: Global,
    spot: Spot<'_>,
    most: usize,
    bounds: Bounds,
    line: u32,
    text: &[u8],
) -> Result<Vec<Name>, ConfigFault>
    ensures { GivesNames result (read_one_name spot.entry most bounds line text.now) }
{
    check_count(alloc, spot, most, bounds, 1)?;
    let mut names = Vec::with_capacity(alloc, 1)?;
    names.push(name_of(alloc, line, text)?)?;
    Ok(names)
}

// The list of one event that is handled always, if a list may have one item.
fn one_handler(
    alloc: Global,
    spot: Spot<'_>,
    bounds: Bounds,
    line: u32,
    name: &[u8],
) -> Result<Vec<Handler>, ConfigFault>
    ensures { GivesHandlers result (read_one_handler spot.entry bounds line name.now) }
{
    check_count(alloc, spot, MAX_ITEMS, bounds, 1)?;
    let event = Event {
        name,
        condition: None,
    };
    let mut handlers = Vec::with_capacity(alloc, 1)?;
    handlers.push(handler_of(alloc, line, event)?)?;
    Ok(handlers)
}

// The names in a list that is no YAML list.
fn text_names(
    alloc: Global,
    spot: Spot<'_>,
    most: usize,
    bounds: Bounds,
    value: &Tree,
) -> Result<Vec<Name>, ConfigFault>
    requires { items_in (node_view value.now) ≡ None }
    ensures { GivesNames result (read_listed_names spot.entry most bounds value.now) }
{
    let items = text_items(alloc, spot, most, bounds, value)?;
    each(
        alloc,
        &items,
        |item|
            ensures { GivesName result (read_item_name spot.entry item.now) }
        { item_name(alloc, spot, *item) },
    )
}

// The handled events in a list that is no YAML list.
fn text_handlers(
    alloc: Global,
    spot: Spot<'_>,
    bounds: Bounds,
    value: &Tree,
) -> Result<Vec<Handler>, ConfigFault>
    requires { items_in (node_view value.now) ≡ None }
    ensures { GivesHandlers result (read_listed_handlers spot.entry bounds value.now) }
{
    let items = text_items(alloc, spot, MAX_ITEMS, bounds, value)?;
    each(
        alloc,
        &items,
        |item|
            ensures { GivesHandler result (read_item_handler spot.entry item.now) }
        { item_handler(alloc, spot, *item) },
    )
}

/// The names in a list, each with the line where it is written. The first fault is at the spot:
/// `Limit` if the list has more items than the most that it may have, whatever they are; `BadValue`
/// if the value is no list, has more or fewer items than the bounds say, or an item is no name.
pub fn names(
    alloc: Global,
    spot: Spot<'_>,
    most: usize,
    bounds: Bounds,
    value: &Tree,
) -> Result<Vec<Name>, ConfigFault>
    ensures { GivesNames result (read_listed_names spot.entry most bounds value.now) }
{
    if let Some(nodes) = value.as_list() {
        return node_names(alloc, spot, most, bounds, nodes);
    }
    if let Some(text) = value.as_scalar()
        && is_name(text)
    {
        // (a name is its own only item, so there is no list of items)
        return one_name(alloc, spot, most, bounds, value.line(), text);
    }
    text_names(alloc, spot, most, bounds, value)
}

/// The handled events in a list, with the faults of [`names`] at 1,024 items.
pub fn handlers(
    alloc: Global,
    spot: Spot<'_>,
    bounds: Bounds,
    value: &Tree,
) -> Result<Vec<Handler>, ConfigFault>
    ensures { GivesHandlers result (read_listed_handlers spot.entry bounds value.now) }
{
    if let Some(nodes) = value.as_list() {
        return node_handlers(alloc, spot, bounds, nodes);
    }
    if let Some(text) = value.as_scalar()
        && is_name(text)
    {
        return one_handler(alloc, spot, bounds, value.line(), text);
    }
    text_handlers(alloc, spot, bounds, value)
}
