//! The pool.

ghost use Rattle.std.specs.Prelude.{◌≡◌, ◌<◌, ◌≤◌, [], List, length, not, IfOk, OnErr};
ghost use Rattle.plan_core.specs.Limits.{most_items, most_price};
ghost use Rattle.cover_core.specs.declared.Column.{Column};
ghost use Rattle.cover_core.specs.Parts.{column_at};
ghost use Rattle.column_pool.specs.Pools.{IsByValue, IsDistinct, is_refused, pool_after};
ghost use Rattle.cover_core.specs.FirstLeast.{AllWithin};
ghost use Rattle.cover_core.specs.Fitting.{AreFit};
ghost use Rattle.column_pool.specs.Buckets.{IsIndexed};

use crate::buckets::insert;
use crate::order::places_by_value;
use cover_core::{Column, Prices};
use plan_core::{Memory, Seq};
use std::alloc::Global;
use std::marker::Model;

/// A list of distinct columns in order of arrival, at most 200,000. Contracts see it as its list.
#[derive(Drop)]
pub struct Pool {
    columns: Vec<Column>,
    heads: Seq<u32>,
    earlier: Vec<u32>,
}

impl Model for Pool {
    ghost Value = { List Column };

    ghost view = { λ p. p.columns.items };

    ghost invariant = { λ p. IsIndexed p.columns.items p.heads p.earlier.items };
}

impl Pool {
    /// A pool without columns. It takes no memory.
    pub fn new(alloc: Global) -> Pool
        ensures { result ≡ [] }
    {
        Pool {
            columns: Vec::new(alloc),
            heads: Seq::new(alloc),
            earlier: Vec::new(alloc),
        }
    }

    /// How many columns there are: at most 200,000.
    pub fn len(&self) -> u32
        ensures value { result ≡ length self.now }
        ensures few { result ≤ 200000 }
    {
        self.columns.len() as u32
    }

    /// The column at a place, counted from 0.
    pub fn get(&self, place: u32) -> &Column
        requires { place < length self.now }
        ensures { result.now ≡ column_at self.now place }
    {
        &self.columns[place as usize]
    }

    /// All columns in order of arrival.
    pub fn as_slice(&self) -> &[Column]
        ensures value { result.now ≡ self.now }
        ensures few { length result.now ≤ 200000 }
        ensures distinct { IsDistinct result.now }
    {
        self.columns.as_slice()
    }

    /// Puts a column behind all others. The answer is false, with the pool unchanged, exactly where a column of the same class and list is
    /// there or 200,000 are. After `Memory` the pool is unchanged; a column that is not put in is dropped.
    pub fn add(&mut self, column: Column) -> Result<bool, Memory>
        ensures answer { IfOk result (λ added. added ≡ not (is_refused self.old column)) }
        ensures pool { IfOk result (λ _. self.new ≡ pool_after self.old column) }
        ensures memory { OnErr result (self.new ≡ self.old) }
    {
        insert(
            &mut self.columns,
            &mut self.heads,
            &mut self.earlier,
            column,
        )
    }

    /// The places of all columns by value, and of those of equal value by place. There are at most 3,000 prices from -10,000,000,000,000 to
    /// 10,000,000,000,000; each column rises, has items that have a price, is worth at most 4,000,000,000 and is of one of at most 32
    /// classes. `Memory` is the only error.
    pub fn sorted_by_value(&self, prices: &Prices) -> Result<Seq<u32>, Memory>
        requires few { length prices.now.items ≤ most_items }
        requires moderate { AllWithin most_price prices.now.items }
        requires fit { AreFit (length prices.now.items) 32 self.now }
        ensures { IfOk result (λ places. IsByValue prices.now.items self.now places) }
    {
        places_by_value(*self.columns.allocator(), self.columns.as_slice(), prices)
    }
}
