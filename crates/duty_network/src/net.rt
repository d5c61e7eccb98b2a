//! The pieces of a day with the pauses between them and the ways of drivers.

ghost use Rattle.std.specs.Prelude.{◌≡◌, ◌<◌, ◌≤◌, ◌≤ℤ◌, ◌-ℤ◌, ◌&&◌, pos, length, All, IfOk, IfSome, Some, slice_get};
ghost use Rattle.plan_core.specs.Limits.{most_items};
ghost use Rattle.vdv452_tables.specs.Ranges.{IsTime};
ghost use Rattle.plan_params.specs.Limits.{HaveRanges, IsGroup};
ghost use Rattle.plan_params.specs.LookUps.{way_in};
ghost use Rattle.duty_network.specs.Times.{seconds};
ghost use Rattle.duty_network.specs.Duties.{follows, from_home_at, is_count, pause_at, pause_over, to_home_at, with_piece};
ghost use Rattle.duty_network.specs.Followers.{AreFollowed, facts};
ghost use Rattle.duty_network.specs.Layout.{AreLaidOut};
ghost use Rattle.duty_network.specs.Ranges.{IsShift, NetFits};

use crate::followers::{Followers, followers_of};
use crate::layout::{Layout, layout_of};
use crate::pauses::{pause_among, pauses_of};
use cover_core::Worth;
use plan_core::{Memory, Piece, Seq};
use plan_params::{Group, Params};
use point_grid::time_at;
use std::alloc::Global;
use std::marker::Model;

/// The duties of a day: lists of pieces with what they are worth in each group of drivers. A list has a worth as a duty of a group where
/// it is not empty and rises by number, the pauses between neighbours and the ways from and to home are there, and articles 6(1), 7 and
/// 8(2) are kept in the limits of the group. No call but `new` takes memory.
#[derive(Drop)]
pub struct DutyNet<'p> {
    pieces: Seq<Piece>,
    params: &'p Params,
    counts: bool,
    layout: Box<Layout>,
    followers: Box<Followers>,
    pauses: Vec<Seq<u32>>,
}

impl<'p> Model for DutyNet<'p> {
    ghost use Rattle.duty_network.specs.Duties.{DutyFacts};
    ghost use Rattle.duty_network.specs.Followers.{AreFollowed, facts};
    ghost use Rattle.duty_network.specs.Layout.{AreLaidOut};
    ghost use Rattle.duty_network.specs.Pauses.{ArePauses};
    ghost use Rattle.duty_network.specs.Ranges.{NetFits};

    ghost Value = { DutyFacts };

    ghost view = { λ net. record { pieces = net.pieces; params = net.params.now; counts = net.counts } };

    ghost invariant = { λ net. NetFits (record { pieces = net.pieces; params = net.params.now; counts = net.counts }) × (AreLaidOut net.pieces net.params.now net.layout.value × AreFollowed net.pieces net.params.now net.followers.value × ArePauses (facts net.pieces net.params.now) net.pauses.items) };
}

/// A number of seconds that is not below 0.
pub(crate) fn to_seconds(number: i64) -> Option<u32>
    requires { number ≤ℤ pos 4294967295 }
    ensures { result ≡ seconds number }
{
    if number < 0 {
        None
    } else {
        Some(number as u32)
    }
}

/// Whether both hold.
pub(crate) fn both(a: bool, b: bool) -> bool
    ensures { result ≡ a && b }
{
    a && b
}

/// Whether a piece follows another directly in one block.
pub(crate) fn is_next(piece: &Piece, next: &Piece) -> bool
    ensures { result ≡ follows piece.now next.now }
{
    both(
        piece.block == next.block,
        piece.index as u64 + 1 == next.index as u64,
    )
}

/// The time between two pieces.
fn between_pieces(piece: &Piece, next: &Piece) -> Option<u32>
    requires piece { IsShift piece.now }
    requires next { IsShift next.now }
    ensures value { result ≡ seconds (next.now.begin.0 -ℤ piece.now.end.0) }
    ensures range { IfSome result (λ time. time < 4294967295) }
{
    to_seconds(next.begin.0 - piece.end.0)
}

/// The time between two pieces that is left after the handover and the way.
fn left_between(piece: &Piece, next: &Piece, handover: u32, way: u32) -> Option<u32>
    requires piece { IsShift piece.now }
    requires next { IsShift next.now }
    requires handover { IsTime handover }
    requires way { IsTime way }
    ensures value { result ≡ seconds (next.now.begin.0 -ℤ piece.now.end.0 -ℤ pos handover -ℤ pos way) }
    ensures range { IfSome result (λ time. time < 4294967295) }
{
    to_seconds(next.begin.0 - piece.end.0 - handover as i64 - way as i64)
}

/// The way from the last point of a piece to the first point of another, in seconds.
fn way_in_layout(pieces: &[Piece], params: &Params, layout: &Layout, p: u32, q: u32) -> Option<u32>
    requires laid { AreLaidOut pieces.now params.now layout.now }
    requires p { p < length pieces.now }
    requires q { q < length pieces.now }
    ensures value { result ≡ with_piece (facts pieces.now params.now) p (λ piece. with_piece (facts pieces.now params.now) q (λ next. way_in params.now piece.to next.from)) }
    ensures range { IfSome result IsTime }
{
    let from = layout.ends.as_slice()[p as usize];
    let to = layout.begins.as_slice()[q as usize];
    time_at(&layout.between, from as usize, to as usize)
}

/// The pause between two of these pieces, in seconds.
pub(crate) fn pause_in(
    pieces: &[Piece],
    params: &Params,
    layout: &Layout,
    p: u32,
    q: u32,
) -> Option<u32>
    requires shifts { All IsShift pieces.now }
    requires params { HaveRanges params.now }
    requires laid { AreLaidOut pieces.now params.now layout.now }
    requires p { p < length pieces.now }
    requires q { q < length pieces.now }
    ensures value { result ≡ pause_at (facts pieces.now params.now) p q }
    ensures range { IfSome result (λ time. time < 4294967295) }
{
    let piece = &pieces[p as usize];
    let next = &pieces[q as usize];
    if is_next(piece, next) {
        between_pieces(piece, next)
    } else {
        let way = way_in_layout(pieces, params, layout, p, q)?;
        left_between(piece, next, params.settings().handover, way)
    }
}

impl<'p> DutyNet<'p> {
    /// The duties over these pieces, by the ways, the handover time and the groups of these settings; each worth its cost, or 1 where
    /// duties are counted. There are at most 3,000 pieces, numbered from 0 by their places; each begins at 0 or later, ends not before
    /// that and by 345,600, and drives no longer than it lasts. `Memory` is the only error.
    pub fn new(
        alloc: Global,
        pieces: Seq<Piece>,
        params: &'p Params,
        worth: Worth,
    ) -> Result<DutyNet<'p>, Memory>
        requires few { length pieces ≤ most_items }
        requires shifts { All IsShift pieces }
        requires params { HaveRanges params.now }
        ensures { IfOk result (λ net. net ≡ record { pieces = pieces; params = params.now; counts = is_count worth }) }
    {
        let layout = layout_of(alloc, pieces.as_slice(), params)?;
        let followers = followers_of(alloc, pieces.as_slice(), params, &layout)?;
        let pauses = pauses_of(alloc, pieces.as_slice(), params, &layout)?;
        let counts = worth == Worth::Count;
        Ok(DutyNet {
            pieces,
            params,
            counts,
            layout: Box::new(alloc, layout)?,
            followers: Box::new(alloc, followers)?,
            pauses,
        })
    }

    /// The pieces by their numbers, from 0.
    pub fn pieces(&self) -> &[Piece]
        ensures pieces { result.now ≡ self.now.pieces }
        ensures few { length result.now ≤ most_items }
        ensures shifts { All IsShift result.now }
    {
        self.pieces.as_slice()
    }

    /// The piece of a number.
    pub fn piece(&self, number: u32) -> &Piece
        requires { number < length self.now.pieces }
        ensures piece { slice_get self.now.pieces number ≡ Some result.now }
        ensures shift { IsShift result.now }
    {
        &self.pieces()[number as usize]
    }

    /// The groups of drivers by GRUPPE_NR.
    pub fn groups(&self) -> &[Group]
        ensures groups { result.now ≡ self.now.params.groups }
        ensures few { length result.now ≤ 32 }
        ensures ranges { All IsGroup result.now }
    {
        self.params.groups()
    }

    /// The group of drivers of a class.
    pub fn group(&self, class: u32) -> &Group
        requires { class < length self.now.params.groups }
        ensures group { slice_get self.now.params.groups class ≡ Some result.now }
        ensures ranges { IsGroup result.now }
    {
        &self.groups()[class as usize]
    }

    /// Whether duties are counted: each is worth 1.
    pub fn counts(&self) -> bool
        ensures { result ≡ self.now.counts }
    {
        self.counts
    }

    /// The numbers of a net are in their ranges. It does nothing.
    pub fn fits(&self)
        ensures { NetFits self.now }
    {
        let _ = &self.counts;
    }

    /// Which pieces can follow which, by the points where they begin.
    pub fn followers(&self) -> &Followers
        ensures { AreFollowed self.now.pieces self.now.params result.now }
    {
        &self.followers
    }

    /// How many seconds a driver of a group is on the way from home to the first point of a piece: 0 from a point to itself, else WEG_SEK.
    /// None where that way is missing.
    pub fn from_home(&self, class: u32, p: u32) -> Option<u32>
        requires class { class < length self.now.params.groups }
        requires piece { p < length self.now.pieces }
        ensures value { result ≡ from_home_at self.now class p }
        ensures range { IfSome result IsTime }
    {
        let layout: &Layout = &self.layout;
        let to = layout.begins.as_slice()[p as usize];
        time_at(&layout.outward, class as usize, to as usize)
    }

    /// How many seconds a driver of a group is on the way from the last point of a piece to home: 0 from a point to itself, else WEG_SEK.
    /// None where that way is missing.
    pub fn to_home(&self, class: u32, p: u32) -> Option<u32>
        requires class { class < length self.now.params.groups }
        requires piece { p < length self.now.pieces }
        ensures value { result ≡ to_home_at self.now class p }
        ensures range { IfSome result IsTime }
    {
        let layout: &Layout = &self.layout;
        let from = layout.ends.as_slice()[p as usize];
        time_at(&layout.inward, from as usize, class as usize)
    }

    /// The pause between two pieces, in seconds: the time between them where the second follows the first directly in one block, else what
    /// is left of it after the handover and the driver's way. None where the way is missing or the result is below 0.
    pub fn pause(&self, p: u32, q: u32) -> Option<u32>
        requires p { p < length self.now.pieces }
        requires q { q < length self.now.pieces }
        ensures { result ≡ pause_at self.now p q }
    {
        pause_among(
            self.pauses.as_slice(),
            self.pieces(),
            self.params,
            &self.layout,
            p,
            q,
        )
    }
}
