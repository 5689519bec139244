//! Lists of names, of calls and of arguments.
ghost use Rattle.std.specs.Prelude.{◌≡◌, ℕ, ◌<◌, List, [], ◌∷◌, ◌++◌, length, slice_get, Some, IfOk, OnOk, OnErr};

use byte_text::Name;
use std::alloc::{AllocError, Global};
use std::marker::Model;

/// A list of items in the order in which they were added.
#[derive(Drop)]
pub struct ItemList<T> {
    items: Vec<T>,
}

/// Names of ports or files.
pub type NameList = ItemList<Name>;

/// Calls, counted from 1, as those that a memory form lets fail.
pub type CallList = ItemList<u64>;

impl<T> Model for ItemList<T> {
    ghost Value = { List T };

    ghost view = { λ l. l.items.items };
}

impl<T: Drop> ItemList<T> {
    /// An empty list; takes no memory.
    pub fn new(alloc: Global) -> Self
        ensures { result ≡ [] }
    {
        ItemList {
            items: Vec::new(alloc),
        }
    }

    /// Adds an item at the end; without memory the list stays and the item is dropped.
    pub fn push(&mut self, item: T) -> Result<(), AllocError>
        ensures ok { OnOk result (self.new ≡ self.old ++ item ∷ []) }
        ensures err { OnErr result (self.new ≡ self.old) }
    {
        self.items.push(item)?;
        Ok(())
    }

    /// A list of these items; takes no memory.
    pub fn from_items(items: Vec<T>) -> Self
        ensures { result ≡ items.items }
    {
        ItemList { items }
    }

    /// The items; takes no memory.
    pub fn into_items(self) -> Vec<T>
        ensures { result.items ≡ self }
    {
        self.items
    }

    /// The items in order.
    pub fn as_slice(&self) -> &[T]
        ensures { result.now ≡ self.now }
    {
        self.items.as_slice()
    }
}

/// A list of these calls. Fails if out of memory.
pub fn calls_of(alloc: Global, numbers: &[u64]) -> Result<CallList, AllocError>
    ensures { IfOk result (λ calls. calls ≡ numbers.now) }
{
    Ok(CallList::from_items(Vec::from_slice(alloc, numbers)?))
}

/// The arguments of a command line, without the program's name.
#[derive(Drop)]
pub struct WordList {
    alloc: Global,
    words: Vec<String>,
}

impl Model for WordList {
    ghost use Rattle.std.specs.Prelude.{List, ℕ};
    ghost use Rattle.octo_outside.specs.Lists.{word_bytes};

    ghost Value = { List (List ℕ) };

    ghost view = { λ w. word_bytes w.words.items };
}

impl WordList {
    /// No arguments; takes no memory.
    pub fn new(alloc: Global) -> Self
        ensures { result ≡ [] }
    {
        WordList {
            alloc,
            words: Vec::new(alloc),
        }
    }

    /// Adds an argument at the end; without memory the list stays.
    pub fn push(&mut self, word: &str) -> Result<(), AllocError>
        ensures ok { OnOk result (self.new ≡ self.old ++ word.now ∷ []) }
        ensures err { OnErr result (self.new ≡ self.old) }
    {
        let word = String::from_str(self.alloc, word)?;
        self.words.push(word)?;
        Ok(())
    }

    /// How many arguments there are.
    pub fn count(&self) -> usize
        ensures { result ≡ length self.now }
    {
        self.words.len()
    }

    /// The argument with this index, counted from 0.
    pub fn get(&self, i: usize) -> &str
        requires { i < length self.now }
        ensures { slice_get self.now i ≡ Some result.now }
    {
        self.words[i].as_str()
    }
}
