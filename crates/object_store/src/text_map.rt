//! Maps of texts in byte order. Nothing outside this crate sees them.

use ale_base::{Items, OutOfMemory};
use std::alloc::Global;
use std::collections::BTreeMap;
use std::collections::btree_map::Iter;
use std::marker::Model;

/// What is at each of some texts. Each call takes time as the logarithm of their number.
#[derive(Drop)]
pub(crate) struct TextMap<V> {
    tree: BTreeMap<Vec<u8>, V>,
}

impl<V> Model for TextMap<V> {
    ghost use Rattle.std.specs.Prelude.{ℕ, List, map};
    ghost use Rattle.std.specs.Coded.{coded_list, coded×, coded_ℕ};

    ghost Value = { List (List ℕ × V) };

    ghost coded = { coded_list (coded× (coded_list coded_ℕ) V.code) };

    ghost view = { λ texts. map (λ entry. (entry.0.items, entry.1)) texts.tree.entries };
}

impl<V> TextMap<V> {
    ghost use Rattle.std.specs.Prelude.{◌≡◌, [], map};
    ghost use Rattle.std.specs.Option.{option_copied};
    ghost use Rattle.object_store.specs.Texts.{IsAscending, entry_at};

    /// Nothing at any text. It takes no memory.
    pub(crate) fn new(alloc: Global) -> TextMap<V>
        ensures { result ≡ [] }
    {
        TextMap {
            tree: BTreeMap::new(alloc),
        }
    }

    /// What is at a text.
    pub(crate) fn get(&self, text: &[u8]) -> Option<&V>
        ensures { option_copied result ≡ entry_at text.now self.now }
    {
        self.tree.get(text)
    }

    /// All texts in byte order, with what is at each.
    pub(crate) fn iter(&self) -> Iter<'_, Vec<u8>, V>
        ensures all { map (λ entry. (entry.0.items, entry.1)) result ≡ self.now }
        ensures ascending { IsAscending self.now }
    {
        self.tree.iter()
    }
}

impl<V: Drop> TextMap<V> {
    ghost use Rattle.std.specs.Prelude.{◌≡◌, OnOk, OnErr};
    ghost use Rattle.object_store.specs.Texts.{with_entry, without_entry};

    /// Puts a value at a text, in the place of what is there. After an `Err` all is as before.
    pub(crate) fn insert(&mut self, alloc: Global, text: &[u8], value: V) -> Result<(), OutOfMemory>
        ensures ok { OnOk result (self.new ≡ with_entry text.now value self.old) }
        ensures err { OnErr result (self.new ≡ self.old) }
    {
        let text = Vec::from_slice(alloc, text)?;
        self.tree.insert(text, value)?;
        Ok(())
    }

    /// Removes what is at a text.
    pub(crate) fn remove(&mut self, text: &[u8])
        ensures { self.new ≡ without_entry text.now self.old }
    {
        let _removed = self.tree.remove(text);
    }
}

impl<V: Drop> TextMap<TextMap<V>> {
    ghost use Rattle.std.specs.Prelude.{◌≡◌, [], OnOk, OnErr};
    ghost use Rattle.std.specs.Option.{unwrap_or};
    ghost use Rattle.object_store.specs.Texts.{entry_at, with_entry};

    /// Puts a value at a text below another one, in the place of what is there. After an `Err` all is as before.
    pub(crate) fn insert_below(
        &mut self,
        alloc: Global,
        above: &[u8],
        text: &[u8],
        value: V,
    ) -> Result<(), OutOfMemory>
        ensures ok { OnOk result (self.new ≡ with_entry above.now
            (with_entry text.now value (unwrap_or (entry_at above.now self.old) [])) self.old) }
        ensures err { OnErr result (self.new ≡ self.old) }
    {
        match self.tree.get_mut(above) {
            Some(below) => below.insert(alloc, text, value),
            None => {
                let mut below = TextMap::new(alloc);
                below.insert(alloc, text, value)?;
                self.insert(alloc, above, below)
            }
        }
    }
}

impl TextMap<Items<u8>> {
    ghost use Rattle.std.specs.Prelude.{◌≡◌, IfOk};

    /// A copy of all.
    pub(crate) fn copied(&self) -> Result<TextMap<Items<u8>>, OutOfMemory>
        ensures { IfOk result (λ copy. copy ≡ self.now) }
    {
        Ok(TextMap {
            tree: self.tree.clone()?,
        })
    }
}
