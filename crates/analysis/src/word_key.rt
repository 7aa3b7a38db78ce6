//! A word as the key of a map.
ghost use Rattle.std.specs.Prelude.{◌≡◌, bytes_eq, IfOk};
ghost use Rattle.std.proofs.Common.{ap};
ghost use Rattle.std.specs.Cmp.{partial_equiv_from_equiv};
ghost use Rattle.std.specs.Cmp.Lexicographic.{bytes_decides, nat_list_eq_equiv};
ghost use Rattle.std.specs.Hash as fed;

use indexmap::Equivalent;
use ix_base::{NoMemory, Text};
use std::alloc::Global;
use std::hash::{Hash, Hasher};
use std::marker::Model;

/// A word as a key.
#[derive(Drop)]
pub struct WordKey {
    text: Text,
}

impl Model for WordKey {
    ghost use Rattle.std.specs.Prelude.{List, ℕ};

    ghost Value = { List ℕ };

    ghost view = { λ key. key.text };
}

impl WordKey {
    /// The key that a copy of a word is. A word of 2^32 bytes or more is refused as want of memory.
    pub fn copy_of(alloc: Global, word: &str) -> Result<WordKey, NoMemory>
        ensures { IfOk result (λ key. key ≡ word.now) }
    {
        if word.len() < 1 << 32 {
            Ok(WordKey {
                text: Text::copy_of(alloc, word)?,
            })
        } else {
            Err(NoMemory)
        }
    }

    /// The word's bytes as a `str`.
    fn as_str(&self) -> &str
        ensures { result.now ≡ self.now }
    {
        self.text.as_str()
    }

    /// The word.
    pub fn into_text(self) -> Text
        ensures { result ≡ self }
    {
        let WordKey { text } = self;
        text
    }
}

impl PartialEq for WordKey {
    ghost eq = { bytes_eq };

    ghost laws = { partial_equiv_from_equiv nat_list_eq_equiv };

    fn eq(&self, other: &WordKey) -> bool {
        self.as_str() == other.as_str()
    }
}

impl Eq for WordKey {
    ghost laws = { nat_list_eq_equiv };
}

impl Hash for WordKey {
    ghost hash_input = { λ key. fed.str key };

    ghost respects_eq = { λ a b h. ap fed.str ((bytes_decides a b).0 h) };

    fn hash<H: Hasher>(&self, state: &mut H) {
        self.as_str().hash(state);
    }
}

impl Equivalent<WordKey> for &str {
    ghost equivalent = { λ q k. bytes_eq q.now k };

    ghost respects_hash = { λ q k h. ap fed.str ((bytes_decides q.now k).0 h) };

    ghost respects_eq = { λ q x y. nat_list_eq_equiv.congr q.now x y };

    fn equivalent(&self, key: &WordKey) -> bool {
        *self == key.as_str()
    }
}
