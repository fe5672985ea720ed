//! Hashing of texts that a stranger chooses.

ghost use Rattle.std.specs.Prelude.{◌≡◌};
ghost use Rattle.yaml_bytes.specs.Hashing.{start_after};

use std::hash::{BuildHasher, DefaultHasher, FoldHasher, Hasher};

/// Makes the hashers of keys or names. They start in a state that comes from all texts that the keys
/// or names are parts of. So no hash is known before all of them are chosen, and another one changes
/// every hash.
#[derive(Clone, Copy)]
pub struct SeededHashing {
    /// The state in which each hasher starts.
    pub start: FoldHasher,
}

impl BuildHasher for SeededHashing {
    type Hasher = FoldHasher;

    ghost build_hasher = { λ hashing. hashing.start };

    fn build_hasher(&self) -> FoldHasher {
        self.start
    }
}

impl SeededHashing {
    /// Hashing by a text, whose SipHash is the first thing that is hashed.
    pub fn of(text: &[u8]) -> Self
        ensures { result ≡ record { start = start_after text.now } }
    {
        let mut all = DefaultHasher::new();
        all.write(text);
        let mut start = FoldHasher::default();
        start.write_u64(all.finish());
        SeededHashing { start }
    }
}
