//! The keys of a mapping, of which each is taken once.

ghost use Rattle.std.specs.Prelude.{◌≡◌, ◌||◌, ℕ, List, [], ◌∷◌, ◌++◌, map, nat_lt, not, IfOk};
ghost use Rattle.std.specs.Str.{bytes_eq};
ghost use Rattle.std.specs.Cow.{cow_slice_items};
ghost use Rattle.yaml_bytes.specs.Bytes.{characters};
ghost use Rattle.yaml_subset.specs.Keys.{is_among, copies_view, HasNoneOrAll};
ghost use Rattle.yaml_subset.specs.Flow.{keys_of};
ghost use Rattle.yaml_subset.specs.View.{pair_view};

use crate::tree::{Key, Tree};
use indexmap::IndexSet;
use std::alloc::{AllocError, Global};
use std::borrow::CowSlice;
use yaml_bytes::characters;

/// Makes the hashers of keys, by the bundle or the text that the keys are parts of.
pub use yaml_bytes::SeededHashing as KeyHashing;

/// How many characters of a line may come before the colon of a key.
const MAX_KEY: usize = 1024;

/// How many keys of a mapping are compared one by one, before a set takes copies of them.
const FEW_KEYS: usize = 16;

/// Whether more characters come before the colon of a key than may come there.
pub(crate) fn is_too_long(front: &[u8]) -> bool
    ensures { result ≡ nat_lt 1024 (characters front.now) }
{
    // Characters are counted only if there are so many bytes.
    front.len() > MAX_KEY && characters(front) > MAX_KEY
}

/// Keys, each a part of a text or with bytes of its own.
pub type KeySet<'t> = IndexSet<CowSlice<'t, u8>, KeyHashing>;

/// A set without keys.
pub fn no_keys<'t>(alloc: Global, hashing: KeyHashing) -> KeySet<'t>
    ensures { copies_view result ≡ [] }
{
    IndexSet::with_hasher(alloc, hashing)
}

/// Takes a key, and says whether it is new. If memory runs out, it may be taken or not.
pub fn take_key<'t>(keys: &mut KeySet<'t>, key: CowSlice<'t, u8>) -> Result<bool, AllocError>
    ensures fresh { IfOk result (λ fresh. fresh ≡ not (is_among (copies_view keys.old) (cow_slice_items key.entry))) }
    ensures known { IfOk result (λ fresh. (q : List ℕ)
        → is_among (copies_view keys.new) q
        ≡ (bytes_eq (cow_slice_items key.entry) q || is_among (copies_view keys.old) q)) }
{
    let fresh = keys.insert(key)?;
    Ok(fresh)
}

// Takes a copy of a key, and says whether it is new. If memory runs out, it may be taken or not.
fn take_copy<'t>(keys: &mut KeySet<'t>, key: &CowSlice<'t, u8>) -> Result<bool, AllocError>
    ensures fresh { IfOk result (λ fresh. fresh ≡ not (is_among (copies_view keys.old) (cow_slice_items key.now))) }
    ensures known { IfOk result (λ fresh. (q : List ℕ)
        → is_among (copies_view keys.new) q
        ≡ (bytes_eq (cow_slice_items key.now) q || is_among (copies_view keys.old) q)) }
{
    // The copy of a part of the text is the same part.
    let copy = key.clone()?;
    let is_new = take_key(keys, copy)?;
    Ok(is_new)
}

// Takes copies of the keys of pairs.
fn take_all<'t>(keys: &mut KeySet<'t>, pairs: &[(Key<'t>, Tree<'t>)]) -> Result<(), AllocError>
    ensures { IfOk result (λ _. (q : List ℕ)
        → is_among (copies_view keys.new) q
        ≡ (is_among (copies_view keys.old) q || is_among (keys_of (map pair_view pairs.now)) q)) }
{
    let mut rest = pairs;
    while let [(key, _), after @ ..] = rest {
        take_copy(keys, &key.text)?;
        rest = after;
    }
    Ok(())
}

// Whether a key is one of those of pairs.
fn has_key(pairs: &[(Key, Tree)], key: &[u8]) -> bool
    ensures { result ≡ is_among (keys_of (map pair_view pairs.now)) key.now }
{
    pairs.iter().any(|(known, _)| known.text.as_slice() == key)
}

/// Takes a key that comes after pairs, and says whether it is none of their keys. The set has copies
/// of their keys, or still none, as when they are few: then keys are compared one by one. If
/// memory runs out, it may have any of them.
pub(crate) fn take_next<'t>(
    keys: &mut KeySet<'t>,
    pairs: &[(Key<'t>, Tree<'t>)],
    key: &CowSlice<'t, u8>,
) -> Result<bool, AllocError>
    requires { HasNoneOrAll (copies_view keys.old) (keys_of (map pair_view pairs.now)) }
    ensures fresh { IfOk result (λ fresh. fresh
        ≡ not (is_among (keys_of (map pair_view pairs.now)) (cow_slice_items key.now))) }
    ensures known { IfOk result (λ fresh. HasNoneOrAll (copies_view keys.new)
        (keys_of (map pair_view pairs.now) ++ cow_slice_items key.now ∷ [])) }
{
    if keys.is_empty() {
        if pairs.len() < FEW_KEYS {
            return Ok(!has_key(pairs, key));
        }
        take_all(keys, pairs)?;
    }
    take_copy(keys, key)
}
