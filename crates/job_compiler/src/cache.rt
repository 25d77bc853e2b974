use crate::compiled::Compiled;
use crate::key::Key;
use lru::LruCache;
use std::alloc::AllocError;
use std::marker::Model;
use std::sync::Arc;

/// The values that were used last, at most 64 of them, each with the key by which it is found. Contracts see them as a list of
/// keys with their values, the one used last first.
#[derive(Drop)]
pub struct LastUsed<T> {
    pub(crate) cache: LruCache<Key, Arc<T>>,
}

/// The compilations that were used last.
pub type Kept = LastUsed<Compiled>;

impl<T> Model for LastUsed<T> {
    ghost use Rattle.std.specs.Prelude.{List};
    ghost use Rattle.job_compiler.specs.declared.key.Key.{Key};

    ghost Value = { List (Key × T) };

    ghost use Rattle.job_compiler.specs.Entries.{values_kept, IsKept};

    ghost view = { λ k. values_kept k.cache.entries };

    ghost invariant = { λ k. IsKept k.cache };
}

impl<T: Drop> LastUsed<T> {
    ghost use Rattle.std.specs.Prelude.{◌≡◌, ◌∷◌, IfOk, OnOk, OnErr, is_some, option_map, take};
    ghost use Rattle.std.specs.Arc.{arc_value};
    ghost use Rattle.std.specs.Map.{lookup, remove_entry};
    ghost use Rattle.lru.specs.LruCache.{promoted};
    ghost use Rattle.job_compiler.specs.Keys.{is_key};
    ghost use Rattle.job_compiler.specs.Entries.{kept_limit};

    /// One more owner of the value that is kept with the key, if one is.
    fn shared(&self, key: &Key) -> Result<Option<Arc<T>>, AllocError>
        ensures { IfOk result (λ found. option_map arc_value found ≡ lookup (is_key key.now) self.now) }
    {
        match self.cache.peek(key) {
            Some(value) => Ok(Some(value.clone()?)),
            None => Ok(None),
        }
    }

    /// Whether a value is kept with the key.
    pub fn has(&self, key: &Key) -> bool
        ensures { result ≡ is_some (lookup (is_key key.now) self.now) }
    {
        match self.cache.peek(key) {
            Some(_) => true,
            None => false,
        }
    }

    /// The value that is kept with the key, or `None` where none is. It is then the one used last, also where there is no memory.
    ///
    /// # Errors
    ///
    /// Want of memory, for one more owner of the value.
    pub fn find(&mut self, key: &Key) -> Result<Option<Arc<T>>, AllocError>
        ensures found { IfOk result (λ found. option_map arc_value found ≡ lookup (is_key key.now) self.old) }
        ensures front { self.new ≡ promoted (is_key key.now) self.old }
    {
        let found = self.shared(key);
        self.cache.promote(key);
        found
    }

    /// Keeps a value with a key, as the one used last. An older one with this key goes, and if there are then too many the one
    /// that was used longest ago.
    ///
    /// # Errors
    ///
    /// Want of memory. What is kept is then as it was.
    pub fn keep(&mut self, key: Key, value: Arc<T>) -> Result<(), AllocError>
        ensures kept { OnOk result (self.new ≡ take kept_limit ((key, arc_value value) ∷ remove_entry (is_key key) self.old)) }
        ensures refused { OnErr result (self.new ≡ self.old) }
    {
        self.cache.put(key, value)?;
        Ok(())
    }
}
