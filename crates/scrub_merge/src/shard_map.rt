//! The shard map. For how it is made, see `merging`.

ghost use Rattle.std.specs.Prelude.{◌≡◌, ◌<◌, ◌++◌, List, IfOk, IfSome, IfNone, Contains, length};
ghost use Rattle.scrub_merge.specs.Binding.{BindingValue};

use crate::binding::Binding;
use scrub_run::{OutOfMemory, ShardId};
use std::marker::Model;

/// The newest binding of each shard that has a locator, in strictly ascending order of identifier.
#[derive(Debug, Drop)]
pub struct ShardMap {
    bindings: Vec<Binding>,
}

impl Model for ShardMap {
    ghost use Rattle.std.specs.Prelude.{List};
    ghost use Rattle.scrub_merge.specs.Binding.{BindingValue};
    ghost use Rattle.scrub_merge.specs.ShardMap.{AreBindings};

    ghost Value = { List BindingValue };

    ghost view = { λ m. m.bindings.items };

    ghost invariant = { λ m. AreBindings m.bindings.items };
}

impl ShardMap {
    ghost use Rattle.scrub_merge.specs.ShardMap.{AreBindings};

    /// The map of these bindings, which are in strictly ascending order of identifier.
    pub(crate) fn new(bindings: Vec<Binding>) -> ShardMap
        requires { AreBindings bindings.items }
        ensures { result ≡ bindings.items }
    {
        ShardMap { bindings }
    }

    /// This map, and after it one of greater identifiers.
    pub(crate) fn followed_by(self, later: ShardMap) -> Result<ShardMap, OutOfMemory>
        requires { AreBindings (self ++ later) }
        ensures { IfOk result (λ whole. whole ≡ self ++ later) }
    {
        let mut bindings = self.bindings;
        let mut others = later.bindings;
        bindings.append(&mut others)?;
        Ok(ShardMap::new(bindings))
    }

    /// The binding of an identifier. `None` if its newest binding says deleted, or if no readable run has it.
    /// Takes no memory.
    pub fn get(&self, id: &ShardId) -> Option<&Binding>
        ensures found { IfSome result (λ b. b.now.id ≡ id.now) }
        ensures among { IfSome result (λ b. Contains self.now b.now) }
        ensures bound { IfSome result (λ b. 0 < length b.now.locators) }
        ensures none { IfNone result ((b : BindingValue) → Contains self.now b → ¬ (b.id ≡ id.now)) }
    {
        match self
            .bindings
            .binary_search_by_key(id, |binding| binding.id())
        {
            Ok(place) => Some(&self.bindings[place]),
            Err(_) => None,
        }
    }

    /// All bindings, in strictly ascending order of identifier.
    pub fn bindings(&self) -> &[Binding]
        ensures bindings { result.now ≡ self.now }
        // True of every value of the type.
        ensures rising { AreBindings self.now }
    {
        self.bindings.as_slice()
    }
}
