//! The rest of the duties of a day.

ghost use Rattle.std.specs.Prelude.{◌≡◌, ◌<◌, ◌≤◌, IfOk, IfSome, length};
ghost use Rattle.plan_core.specs.Limits.{most_items, most_worth};
ghost use Rattle.cover_core.specs.Cover.{AllBelow};
ghost use Rattle.cover_core.specs.Plans.{AreColumns};
ghost use Rattle.cover_rest.specs.Keeping.{AreHeads};
ghost use Rattle.cover_rest.specs.Laws.{StandForAll};
ghost use Rattle.cover_rest.specs.Rest.{bodies, body_at, rest_worth, written_plan};
ghost use Rattle.duty_network.specs.Duties.{duties};
ghost use Rattle.duty_rest.specs.Rest.{begun_of, may_begin, rests};

use crate::begun::begun_columns;
use crate::head::DutyHead;
use crate::pricing::best_list;
use crate::walk::written_worth;
use cover_core::{Column, Columns, Plan, Pricer, Prices};
use cover_rest::{Begun, bodies, bodies_stand_for_all, body, is_rest_list, written_out};
use duty_network::DutyNet;
use plan_core::{Memory, Seq};
use std::alloc::Global;
use std::marker::Model;

/// What remains to be planned of the duties of a day from a moment on. Its items are first the heads, in their order, and then the pieces
/// in no head, by number; its classes are the groups of drivers. A list of items is written out by putting a head's pieces in the head's
/// place. The plans of the rest, written out, are the plans of the day's duties that keep what has begun. Only `new`, `expand` and
/// `best` take memory.
#[derive(Drop)]
pub struct DutyRest<'n> {
    net: &'n DutyNet<'n>,
    heads: Seq<DutyHead>,
    begun: Seq<Begun>,
    bodies: Seq<Seq<u32>>,
    moment: u32,
}

impl<'n> Model for DutyRest<'n> {
    ghost use Rattle.duty_rest.specs.Rest.{IsMade, RestFacts};

    ghost Value = { RestFacts };

    ghost view = { λ rest. record { net = rest.net.now; heads = rest.heads; moment = rest.moment } };

    ghost invariant = { λ rest. IsMade rest.net.now rest.heads rest.begun rest.bodies };
}

/// How many items a rest has.
fn count(net: &DutyNet<'_>, bodies: &[Seq<u32>]) -> u32
    requires { StandForAll (length net.now.pieces) bodies.now }
    ensures value { result ≡ length bodies.now }
    ensures bound { result ≤ most_items }
{
    // Pieces are few: the net says so.
    let _ = net.pieces();
    bodies.len() as u32
}

/// The worth of a list of a rest in a group, if it has one.
fn list_worth(
    net: &DutyNet<'_>,
    heads: &[Begun],
    bodies: &[Seq<u32>],
    class: u32,
    list: &[u32],
) -> Option<u64>
    requires class { class < length net.now.params.groups }
    requires bodies { StandForAll (length net.now.pieces) bodies.now }
    requires list { AllBelow (length bodies.now) list.now }
    ensures value { result ≡ rest_worth (duties net.now) heads.now bodies.now may_begin class list.now }
    ensures bound { IfSome result (λ worth. worth ≤ most_worth) }
{
    if is_rest_list(heads, bodies.len(), class, list, true) {
        written_worth(net, class, bodies, list)
    } else {
        None
    }
}

impl<'n> DutyRest<'n> {
    /// The rest of the duties of a net, of which these heads have begun before a moment, in seconds. No head is empty, its pieces are
    /// there, and no piece stands in heads twice: the heads of an earlier plan are so, where no begun piece stands twice in its duties. A
    /// duty without a head may sign on at any time, so the moment is kept and bears on no worth. It takes time in proportion to the
    /// pieces. `Memory` is the only error.
    pub fn new(
        alloc: Global,
        net: &'n DutyNet<'n>,
        heads: Seq<DutyHead>,
        moment: u32,
    ) -> Result<DutyRest<'n>, Memory>
        requires { AreHeads (duties net.now) (begun_of heads) }
        ensures net { IfOk result (λ rest. rest.net ≡ net.now) }
        ensures heads { IfOk result (λ rest. rest.heads ≡ heads) }
        ensures moment { IfOk result (λ rest. rest.moment ≡ moment) }
    {
        let begun = begun_columns(alloc, heads.as_slice())?;
        let bodies = bodies(alloc, begun.as_slice(), net.pieces().len() as u32)?;
        // The items stand for each piece once, so they are few.
        bodies_stand_for_all();
        Ok(DutyRest {
            net,
            heads,
            begun,
            bodies,
            moment,
        })
    }

    /// The pieces that an item stands for: those of a head, or one piece.
    pub fn pieces_of(&self, item: u32) -> &[u32]
        requires { item < (rests self.now).items }
        ensures { result.now ≡ body_at (bodies (begun_of self.now.heads) (length self.now.net.pieces)) item }
    {
        body(self.bodies.as_slice(), item)
    }

    /// The columns of a plan of the rest, written out: each in its place, with its group, its worth, and the pieces that its items stand
    /// for. Of a plan of the rest that is a plan of the day's duties, which keeps what has begun. `Memory` is the only error.
    pub fn expand(&self, alloc: Global, plan: &Plan) -> Result<Plan, Memory>
        requires { AreColumns (rests self.now) plan.now.columns }
        ensures { IfOk result (λ written. written.columns ≡ written_plan (bodies (begun_of self.now.heads) (length self.now.net.pieces)) plan.now.columns) }
    {
        written_out(alloc, self.bodies.as_slice(), plan)
    }

    /// The duties of the day.
    pub fn net(&self) -> &DutyNet<'n>
        ensures { result.now ≡ self.now.net }
    {
        self.net
    }

    /// The heads.
    pub fn heads(&self) -> &[DutyHead]
        ensures { result.now ≡ self.now.heads }
    {
        self.heads.as_slice()
    }

    /// The moment, in seconds.
    pub fn moment(&self) -> u32
        ensures { result ≡ self.now.moment }
    {
        self.moment
    }
}

impl Columns for DutyRest<'_> {
    ghost use Rattle.duty_rest.specs.Listed.{rests_listed};

    ghost problem = { rests };

    ghost listed = { rests_listed };

    /// The heads and the pieces in no head.
    fn items(&self) -> u32 {
        count(self.net, self.bodies.as_slice())
    }

    /// The groups of drivers, by GRUPPE_NR.
    fn classes(&self) -> u32 {
        self.net.classes()
    }

    /// How many drivers a group has (ANZAHL).
    fn cap(&self, class: u32) -> u32 {
        self.net.cap(class)
    }

    /// The worth of a list of the rest as a duty of a group: that of the written-out list. A list with a head has none where the head is
    /// not its first item, where it has a second head, where the group is not the head's, or where the head is finished and another item
    /// follows. It takes no memory.
    fn worth(&self, class: u32, list: &[u32]) -> Option<u64> {
        list_worth(
            self.net,
            self.begun.as_slice(),
            self.bodies.as_slice(),
            class,
            list,
        )
    }
}

impl Pricer for DutyRest<'_> {
    fn best(
        &self,
        alloc: Global,
        class: u32,
        prices: &Prices,
        group: u32,
        limit: i64,
    ) -> Result<Option<Column>, Memory> {
        best_list(
            alloc,
            self,
            self.net,
            self.begun.as_slice(),
            self.bodies.as_slice(),
            class,
            prices.items.as_slice(),
            group,
            limit,
        )
    }
}
