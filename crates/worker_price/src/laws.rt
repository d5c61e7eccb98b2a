//! What holds of every pricing step. Each function does nothing: its contract is the theorem.

ghost use Rattle.cover_core.specs.Cover.{Problem};
ghost use Rattle.worker_price.specs.Priced.{LeastIsOfLists, LeastIsBounded};
ghost use Rattle.worker_price.specs.Runs.{KeepsPriced, GathersLeast};

use cover_core::{Columns, best_is_first_least};
use task_board::every_run_is_sound;

/// The least value of a class, which is made of the first leasts of its groups, is the least of 0 and the values of all its lists
/// that have a worth. With at most 3,000 items and prices from -10,000,000,000,000 to 10,000,000,000,000 it is at least
/// -30,000,000,000,000,000.
pub fn least_values<C: Columns>()
    ensures lists { (columns : C) → LeastIsOfLists (C.problem columns) }
    ensures bound { (columns : C) → LeastIsBounded (C.problem columns) }
{
    best_is_first_least::<C>();
}

/// The workers' theorem: no limit hides a column, whatever the order of the workers' steps. It speaks of every list of events of the
/// board's machine, of any number of desks, and of any prices.
///
/// Each drawn task has a limit: -1, or the smaller of -1 and half of a value that was looked at for its class, rounded down. It
/// gathers its first least, where there is one and its value is within the limit. Each value by which a class is lowered is that of a
/// gathered column of the class. Then, once one desk has the whole share and some claim has found no task left:
///
/// - `columns`: the gathered columns whose value is below 0 and twice whose value is at most the least gathered value of their class,
///   in the order of class and group, are the columns that a pricing step keeps.
/// - `least`: the least gathered value of each class, or 0 where none is below 0, is the least value of the class.
///
/// These are the definitions that [`work`](crate::work()) and [`price_all`](crate::price_all) cite.
pub fn every_run_is_priced()
    ensures columns { (p : Problem) → KeepsPriced p }
    ensures least { (p : Problem) → GathersLeast p }
{
    every_run_is_sound();
}
