//! What is found by name.

use indexmap::{IndexMap, IndexSet};
use yaml_subset::keys::KeyHashing;

/// Values by their names, which are bytes of the configuration.
pub type ByName<'a, V> = IndexMap<&'a [u8], V, KeyHashing>;

/// Names, which are bytes of the configuration.
pub type Names<'a> = IndexSet<&'a [u8], KeyHashing>;
