ghost use Rattle.std.specs.Prelude.{◌≡◌, ◌+◌, ◌-◌, ◌<◌, ◌≤◌, ◌==◌, [], ◌∷◌, ◌++◌, length, List, ℕ, None, OnOk, OnErr, IfOk, IfErr, vec_len, vec_capacity, reverse};
ghost use Rattle.std.specs.Option.{option_to_list};
ghost use Rattle.svc_base.specs.Items.{list_of, spare};

use crate::memory::NoMemory;
use crate::settings::Setting;
use crate::text::Text;
use std::alloc::Global;
use std::marker::Model;

/// An item for which no memory was found comes back.
#[derive(Debug, Drop)]
pub struct ItemRefused<T> {
    pub reason: NoMemory,
    pub item: T,
}

/// A list that tells contracts the room that was reserved in it: they see its items and for how many
/// more it has memory.
#[derive(Debug, Drop)]
pub struct Reserved<T> {
    items: Vec<T>,
}

impl<T> Model for Reserved<T> {
    ghost use Rattle.std.specs.Prelude.{List, ℕ, ◌-◌, vec_len, vec_capacity};

    ghost Value = { List T × ℕ };

    ghost view = { λ s. (s.items.items, vec_capacity s.items - vec_len s.items) };
}

impl<T> Reserved<T> {
    /// No items, and no memory yet.
    pub fn new(alloc: Global) -> Self
        ensures { list_of result ≡ [] }
    {
        Reserved {
            items: Vec::new(alloc),
        }
    }

    /// These items, with the room that they have.
    pub fn of(items: Vec<T>) -> Self
        ensures items { list_of result ≡ items.items }
        ensures room { spare result ≡ vec_capacity items - vec_len items }
    {
        Reserved { items }
    }

    /// The items.
    pub fn as_slice(&self) -> &[T]
        ensures { result.now ≡ list_of self.now }
    {
        self.items.as_slice()
    }

    /// How many items there are.
    pub fn len(&self) -> u64
        ensures { result ≡ length (list_of self.now) }
    {
        self.items.len() as u64
    }

    /// Whether there is none.
    pub fn is_empty(&self) -> bool
        ensures { result ≡ (length (list_of self.now) == 0) }
    {
        self.items.is_empty()
    }

    /// Makes room for `n` items: after it `n` calls of `push` or `put` find memory.
    pub fn reserve(&mut self, _alloc: Global, n: u64) -> Result<(), NoMemory>
        ensures items { list_of self.new ≡ list_of self.old }
        ensures room { OnOk result (n ≤ spare self.new) }
        ensures kept { spare self.old ≤ spare self.new }
    {
        self.items.reserve(n as usize)?;
        Ok(())
    }

    /// Appends. It is refused only where no room is left.
    pub fn push(&mut self, _alloc: Global, item: T) -> Result<(), ItemRefused<T>>
        ensures ok { OnOk result (list_of self.new ≡ list_of self.old ++ item ∷ []) }
        ensures room { spare self.old ≤ spare self.new + 1 }
        ensures refused { OnErr result (self.new ≡ self.old) }
        ensures back { IfErr result (λ r. r.item ≡ item) }
        ensures full { OnErr result (spare self.old ≡ 0) }
    {
        if self.items.reserve(1).is_err() {
            return Err(ItemRefused {
                reason: NoMemory,
                item,
            });
        }
        self.items.push_reserved(item);
        Ok(())
    }

    /// Appends into reserved room.
    pub fn put(&mut self, item: T)
        requires { 0 < spare self.old }
        ensures items { list_of self.new ≡ list_of self.old ++ item ∷ [] }
        ensures room { spare self.old ≤ spare self.new + 1 }
    {
        self.items.push_reserved(item);
    }

    /// Takes the first item. What is left moves up.
    pub fn pop_first(&mut self) -> Option<T>
        ensures items { list_of self.old ≡ option_to_list result ++ list_of self.new }
        ensures none { result ≡ None → list_of self.old ≡ [] }
    {
        if self.items.is_empty() {
            return None;
        }
        Some(self.items.remove(0))
    }

    /// Turns the order of the items round: `pop_last` then takes them in the order that they had.
    pub fn reverse(&mut self)
        ensures turned { reverse (list_of self.new) ≡ list_of self.old }
        ensures room { spare self.new ≡ spare self.old }
    {
        self.items.reverse();
    }

    /// Takes the last item.
    pub fn pop_last(&mut self) -> Option<T>
        ensures items { reverse (list_of self.old) ≡ option_to_list result ++ reverse (list_of self.new) }
        ensures none { result ≡ None → list_of self.new ≡ [] }
        ensures room { spare self.old ≤ spare self.new }
    {
        self.items.pop()
    }

    /// The same items as a list that doesn't tell its room. The memory stays with them.
    pub fn into_items(self) -> Items<T>
        ensures { result ≡ list_of self }
    {
        Items { inner: self }
    }
}

/// A list. Contracts see it as the list of its items. It stands over a `Reserved`, whose contracts
/// say that room once reserved is found.
#[derive(Debug, Drop)]
pub struct Items<T> {
    inner: Reserved<T>,
}

impl<T> Model for Items<T> {
    ghost use Rattle.std.specs.Prelude.{List};

    ghost Value = { List T };

    ghost view = { λ s. s.inner.0 };
}

impl<T> Items<T> {
    /// No items, and no memory yet.
    pub fn new(alloc: Global) -> Self
        ensures { result ≡ [] }
    {
        Items {
            inner: Reserved::new(alloc),
        }
    }

    /// The items.
    pub fn as_slice(&self) -> &[T]
        ensures { result.now ≡ self.now }
    {
        self.inner.as_slice()
    }

    /// How many items there are.
    pub fn len(&self) -> u64
        ensures { result ≡ length self.now }
    {
        self.inner.len()
    }

    /// Whether there is none.
    pub fn is_empty(&self) -> bool
        ensures { result ≡ (length self.now == 0) }
    {
        self.inner.is_empty()
    }

    /// Makes room for `n` items: after it `n` calls of `push` find memory.
    pub fn reserve(&mut self, alloc: Global, n: u64) -> Result<(), NoMemory>
        ensures { self.new ≡ self.old }
    {
        self.inner.reserve(alloc, n)
    }

    /// Appends.
    pub fn push(&mut self, alloc: Global, item: T) -> Result<(), ItemRefused<T>>
        ensures ok { OnOk result (self.new ≡ self.old ++ item ∷ []) }
        ensures refused { OnErr result (self.new ≡ self.old) }
        ensures back { IfErr result (λ r. r.item ≡ item) }
    {
        self.inner.push(alloc, item)
    }

    /// Takes the first item. What is left moves up.
    pub fn pop_first(&mut self) -> Option<T>
        ensures items { self.old ≡ option_to_list result ++ self.new }
        ensures none { result ≡ None → self.old ≡ [] }
    {
        self.inner.pop_first()
    }

    /// The same items as a list that tells contracts its room.
    pub fn into_reserved(self) -> Reserved<T>
        ensures { list_of result ≡ self }
    {
        self.inner
    }
}

/// These items once more, in exactly the memory that they take.
pub fn copy_items<T: Copy>(alloc: Global, items: &[T]) -> Result<Items<T>, NoMemory>
    ensures { IfOk result (λ copied. copied ≡ items.now) }
{
    let mut copied = Vec::new(alloc);
    copied.reserve_exact(items.len())?;
    copied.extend_from_slice(items)?;
    Ok(Items {
        inner: Reserved { items: copied },
    })
}

/// Bytes of a message.
pub type Bytes = Items<u8>;

/// Texts, in order.
pub type Texts = Items<Text>;

/// Service numbers.
pub type Numbers = Items<u32>;

/// Socket options, in order.
pub type Settings = Items<Setting>;
