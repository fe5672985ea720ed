//! The value of a setting, by its kind.

ghost use Rattle.std.specs.Prelude.{◌≡◌, IfOk};
ghost use Rattle.setting_values.specs.View.{handlers_view, step_view};
ghost use Rattle.setting_values.specs.ValueAnswers.{GivesStep, GivesSteps, read_step, read_steps};
ghost use Rattle.setting_values.specs.Gives.{GivesValue, read_value};

use crate::fields::{keyed_list, maps, named_maps};
use crate::items::each;
use crate::kinds::{Bounds, Kind};
use crate::lists::{MAX_ITEMS, handlers, names};
use crate::nodes::nodes;
use crate::scalars::{is_name, name_of, plain};
use crate::values::{Handler, Name, NameText, Step, Value};
use config_faults::{ConfigFault, Spot};
use std::alloc::{AllocError, Global};
use yaml_subset::tree::Tree;

// The step that these events do. One event that is handled always takes no list.
fn step_of(alloc: Global, handlers: Vec<Handler>) -> Result<Step, AllocError>
    ensures { IfOk result (λ step. step_view step ≡ handlers_view handlers) }
{
    if let [handler] = handlers.as_slice()
        && handler.condition.is_none()
    {
        let text = NameText::from_slice(alloc, &handler.name)?;
        let line = handler.line;
        return Ok(Step::Always(Name { line, text }));
    }
    Ok(Step::AnyOf(handlers))
}

// A step of a list of steps: a list of handled events that is not empty; or its first fault.
fn step(alloc: Global, spot: Spot<'_>, node: &Tree) -> Result<Step, ConfigFault>
    ensures { GivesStep result (read_step spot.entry node.now) }
{
    if let Some(text) = node.as_scalar()
        && is_name(text)
    {
        // (a name is the event of this name, handled always)
        let name = name_of(alloc, node.line(), text)?;
        return Ok(Step::Always(name));
    }
    let handlers = handlers(alloc, spot, Bounds::AtLeast(1), node)?;
    let step = step_of(alloc, handlers)?;
    Ok(step)
}

// The steps in a list, each a list of handled events that is not empty; or the first fault.
fn steps(
    alloc: Global,
    spot: Spot<'_>,
    bounds: Bounds,
    tree: &Tree,
) -> Result<Vec<Step>, ConfigFault>
    ensures { GivesSteps result (read_steps spot.entry bounds tree.now) }
{
    let list_nodes = nodes(alloc, spot, bounds, tree)?;
    each(
        alloc,
        list_nodes.nodes,
        |node|
            ensures { GivesStep result (read_step spot.entry node.now) }
        { step(alloc, spot, node) },
    )
}

/// The value of a setting of this kind; or its first fault.
#[tactic(auto, unfolding(crate::specs::Reading::value_at))]
pub fn value(alloc: Global, spot: Spot<'_>, kind: Kind, tree: &Tree) -> Result<Value, ConfigFault>
    ensures { GivesValue result (read_value spot.entry kind tree.now) }
{
    match kind {
        Kind::One(scalar) => {
            let value = plain(alloc, spot, scalar, tree)?;
            Ok(Value::One(value))
        }
        Kind::Names(bounds) => {
            let names = names(alloc, spot, MAX_ITEMS, bounds, tree)?;
            Ok(Value::Names(names))
        }
        Kind::Posts(bounds) => {
            let posts = names(alloc, spot, MAX_ITEMS, bounds, tree)?;
            Ok(Value::Posts(posts))
        }
        Kind::Events(bounds) => {
            let handlers = handlers(alloc, spot, bounds, tree)?;
            Ok(Value::Events(handlers))
        }
        Kind::Steps(bounds) => {
            let steps = steps(alloc, spot, bounds, tree)?;
            Ok(Value::Steps(steps))
        }
        Kind::Maps(table, others, bounds) => {
            let maps = maps(alloc, spot, table, others, bounds, tree)?;
            Ok(Value::Maps(maps))
        }
        Kind::NamedMaps(table, others, bounds) => {
            let maps = named_maps(alloc, spot, table, others, bounds, tree)?;
            Ok(Value::Maps(maps))
        }
        Kind::Keyed(table, at, short) => {
            let items = keyed_list(alloc, spot, table, at, short, tree)?;
            Ok(Value::Keyed(items))
        }
    }
}
