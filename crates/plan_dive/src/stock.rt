//! The columns that are known.

ghost use Rattle.std.specs.Prelude.{◌≡◌, ◌<◌, ◌≤◌, ◌∷◌, [], length, IfOk, IfSome, OnOk};
ghost use Rattle.price_rounds.specs.Steps.{AreReady, IsSized};
ghost use Rattle.worker_price.specs.Work.{ArePricesFor};
ghost use Rattle.plan_dive.specs.Grounds.{IsGround, IsRest, IsStock};
ghost use Rattle.lagrangian_climb.specs.Climbs.{IsPeak};

use column_pool::Pool;
use column_weave::{Web, weave};
use cover_core::{Column, Columns};
use lagrangian_climb::{Peak, Rest};
use plan_core::{Memory, Seq};
use price_rounds::add_all;
use std::alloc::Global;

/// A pool of columns, and the links of their neighbours.
#[derive(Drop)]
pub struct Stock {
    /// The columns, in order of arrival.
    pub pool: Pool,
    /// The links, in order of arrival.
    pub web: Web,
}

impl Stock {
    /// No columns, and the links of the nearest items. `Memory` is the only error.
    pub fn new<C: Columns>(alloc: Global, problem: &C) -> Result<Stock, Memory>
        ensures { IfOk result (IsStock (C.problem problem.now)) }
    {
        Ok(Stock {
            pool: Pool::new(alloc),
            web: Web::new(alloc, problem)?,
        })
    }

    /// Adds columns, one after another, those that are new, and the links of their neighbours; answers whether there were any. `Memory` is
    /// the only error.
    pub fn add<C: Columns>(
        &mut self,
        alloc: Global,
        problem: &C,
        columns: Seq<Column>,
    ) -> Result<bool, Memory>
        requires stock { IsStock (C.problem problem.now) self.old }
        requires columns { AreReady (C.problem problem.now) columns }
        ensures { OnOk result (IsStock (C.problem problem.now) self.new) }
    {
        let before = self.pool.len();
        self.web.link_all(alloc, problem, columns.as_slice())?;
        add_all(&mut self.pool, columns, problem)?;
        Ok(before < self.pool.len())
    }

    /// Weaves columns at the prices of a peak, and adds them; answers whether there were new ones. `Memory` is the only error.
    pub fn weave<C: Columns>(
        &mut self,
        alloc: Global,
        problem: &C,
        rest: &Rest,
        peak: &Peak,
    ) -> Result<bool, Memory>
        requires stock { IsStock (C.problem problem.now) self.old }
        requires rest { IsRest (C.problem problem.now) rest.now }
        requires peak { IsPeak (C.problem problem.now).items (length (C.problem problem.now).caps) peak.now }
        ensures { OnOk result (IsStock (C.problem problem.now) self.new) }
    {
        let woven = weave(
            alloc,
            problem,
            &self.web,
            &peak.prices,
            rest.fixed.as_slice(),
            rest.caps.as_slice(),
            peak.class_prices.as_slice(),
        )?;
        self.add(alloc, problem, woven)
    }
}
