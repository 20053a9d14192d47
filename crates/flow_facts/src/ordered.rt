//! Lists in the order of their places, and each item once.

ghost use Rattle.std.specs.Prelude.{◌≡◌, ℕ, ◌<◌, IfOk, IfSome, Option, List, length, map, position};
ghost use Rattle.flow_rules.specs.Ordered.{by_place, once};

use crate::Tried;
use crate::cells::FieldCell;
use crate::lists::PlacedCall;
use fact_model::TestInfo;
use flow_rules::{
    Column, ColumnItem, Mark, Outline, Point, PointAt, PointItem, Row, RowItem, Site,
};
use indexmap::IndexSet;
use std::alloc::{AllocError, Global};
use std::hash::Hash;
use std::mem::drop;

/// What stands at a place: of the text, or of a list.
pub trait HasPlace {
    ghost at: { Self → ℕ };

    /// How many bytes of the text, or items of the list, are before it.
    fn at(&self) -> u32
        ensures value { result ≡ at self.now };
}

impl HasPlace for Row {
    ghost at = { λ r. r.place.at };

    fn at(&self) -> u32 {
        self.place.at
    }
}

impl HasPlace for Column {
    ghost at = { λ c. c.place.at };

    fn at(&self) -> u32 {
        self.place.at
    }
}

impl HasPlace for Site {
    ghost at = { λ s. s.place.at };

    fn at(&self) -> u32 {
        self.place.at
    }
}

impl HasPlace for PointAt {
    ghost at = { λ p. p.place.at };

    fn at(&self) -> u32 {
        self.place.at
    }
}

impl HasPlace for Outline {
    ghost at = { λ o. o.place.at };

    fn at(&self) -> u32 {
        self.place.at
    }
}

impl HasPlace for PlacedCall {
    ghost at = { λ c. c.place.at };

    fn at(&self) -> u32 {
        self.place.at
    }
}

impl HasPlace for TestInfo {
    ghost at = { λ t. t.place.at };

    fn at(&self) -> u32 {
        self.place.at
    }
}

impl HasPlace for Mark {
    ghost at = { λ m. m.place.at };

    fn at(&self) -> u32 {
        self.place.at
    }
}

impl HasPlace for FieldCell {
    ghost at = { λ f. f.column };

    fn at(&self) -> u32 {
        self.column
    }
}

/// The list by its places; what stands at one place stays in its order.
pub fn by_place<T: HasPlace>(mut items: Vec<T>) -> Tried<Vec<T>>
where
    T: Drop,
    ensures value { IfOk result (λ v. v.items ≡ by_place T.at items.items) }
{
    items.sort_by_key(|item| item.at())?;
    Ok(items)
}

/// What has a key, under which it is listed once.
pub trait HasKey<K> {
    ghost key: { Self → K };

    /// The key.
    fn key(&self) -> K
        ensures value { result ≡ key self.now };
}

impl HasKey<RowItem> for Row {
    ghost key = { λ r. r.item };

    fn key(&self) -> RowItem {
        self.item
    }
}

impl HasKey<ColumnItem> for Column {
    ghost key = { λ c. c.item };

    fn key(&self) -> ColumnItem {
        self.item
    }
}

impl HasKey<u64> for Site {
    ghost key = { λ s. s.number };

    fn key(&self) -> u64 {
        self.number
    }
}

impl HasKey<PointItem> for Point {
    ghost key = { λ p. p.item };

    fn key(&self) -> PointItem {
        self.item
    }
}

/// A list without two of one key, and the numbers of its keys.
#[derive(Drop)]
pub struct Listed<T, K: Eq + Hash> {
    pub items: Vec<T>,
    pub keys: IndexSet<K>,
}

/// The first of each key.
pub fn once<K: Eq + Hash + Copy + Drop, T: HasKey<K> + Copy>(
    alloc: Global,
    all: &Vec<T>,
) -> Tried<Listed<T, K>>
    ensures items { IfOk result (λ l. l.items.items ≡ once K.eq T.key all.now.items) }
    ensures keys { IfOk result (λ l. l.keys.keys ≡ map T.key (once K.eq T.key all.now.items)) }
{
    let mut items = Vec::new(alloc);
    let mut keys = IndexSet::new(alloc);
    for item in all {
        let (_, added) = made!(keys.insert_full(item.key()) => AllocError; items, keys);
        if added {
            made!(items.push(*item) => AllocError; items, keys);
        }
    }
    Ok(Listed { items, keys })
}

/// The first of each key by their places.
pub fn once_by_place<K: Eq + Hash + Copy + Drop, T: HasPlace + HasKey<K> + Copy + Drop>(
    alloc: Global,
    all: Vec<T>,
) -> Tried<Listed<T, K>>
    ensures items { IfOk result (λ l. l.items.items ≡ once K.eq T.key (by_place T.at all.items)) }
    ensures keys { IfOk result (λ l. l.keys.keys ≡ map T.key (once K.eq T.key (by_place T.at all.items))) }
{
    let all = made!(by_place(all));
    once(alloc, &all)
}
