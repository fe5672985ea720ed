//! Lists that are read item by item.

ghost use Rattle.std.specs.Prelude.{filter};
ghost use Rattle.std.specs.Fn.{FnReturnsAt};
ghost use Rattle.setting_values.specs.GivenEach.{GaveEach};
ghost use Rattle.setting_values.specs.ValueAnswers.{is_counted};

use crate::lists::is_empty;
use config_faults::ConfigFault;
use std::alloc::Global;
use yaml_subset::tree::Tree;

/// What `read` gives for each item, or its first error.
pub fn each<T, U: Drop, F: Fn(&T) -> Result<U, ConfigFault>>(
    alloc: Global,
    items: &[T],
    read: F,
) -> Result<Vec<U>, ConfigFault>
    requires { F.IsAlwaysCallable read }
    ensures { GaveEach (FnReturnsAt F.Fn read) items.now result }
{
    let mut results = Vec::with_capacity(alloc, items.len())?;
    for item in items {
        let one = read(item)?;
        results.push(one)?;
    }
    Ok(results)
}

/// What `read` gives for each node that counts as an item of a YAML list, or its first error. There
/// is room for so many from the start.
pub fn each_counted<U: Drop, F: Fn(&Tree) -> Result<U, ConfigFault>>(
    alloc: Global,
    count: usize,
    nodes: &[Tree],
    read: F,
) -> Result<Vec<U>, ConfigFault>
    requires { F.IsAlwaysCallable read }
    ensures { GaveEach (FnReturnsAt F.Fn read) (filter is_counted nodes.now) result }
{
    let mut results = Vec::with_capacity(alloc, count)?;
    for node in nodes {
        if !is_empty(node) {
            let one = read(node)?;
            results.push(one)?;
        }
    }
    Ok(results)
}
