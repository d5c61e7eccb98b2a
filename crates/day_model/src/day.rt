//! The day.

ghost use Rattle.std.specs.Prelude.{◌≡◌, ◌<◌, ◌≤◌, All, IfOk, IfSome, Some, length, slice_get};
ghost use Rattle.plan_core.specs.Limits.{most_items};
ghost use Rattle.vdv452_tables.specs.Ranges.{IsTime};
ghost use Rattle.trip_times.specs.declared.trip.Trip.{Trip};
ghost use Rattle.plan_params.specs.Limits.{HaveRanges};
ghost use Rattle.day_model.specs.Begins.{AreDepartures, AreEndNumbers, AreMinutes};
ghost use Rattle.day_model.specs.Facts.{dead, is_relief};
ghost use Rattle.day_model.specs.Layout.{AreLaidOut};
ghost use Rattle.day_model.specs.Links.{admits_at, link_at, pull_in_at, pull_out_at, with_pool, with_trip};
ghost use Rattle.day_model.specs.Ranges.{AreInRange, IsDaily, IsShort};

use crate::departures::Departures;
use crate::going::{by_depot, direct, timely_pull_out};
use crate::layout::Layout;
use crate::link::Link;
use day_calendar::DayKind;
use deadheads::Deadheads;
use plan_core::{Memory, Seq};
use plan_params::Params;
use point_grid::time_at;
use std::alloc::Global;
use std::marker::Model;
use trip_times::Trip;

/// The trips of a day with their times, the settings, and the connections and pulls between them. No call takes memory.
#[derive(Drop)]
pub struct Day {
    kind: DayKind,
    rows: Seq<u32>,
    trips: Seq<Trip>,
    params: Box<Params>,
    deadheads: Box<Deadheads>,
    layout: Box<Layout>,
}

impl Model for Day {
    ghost use Rattle.day_model.specs.Facts.{DayFacts};
    ghost use Rattle.day_model.specs.Layout.{AreLaidOut};
    ghost use Rattle.day_model.specs.Ranges.{AreInRange};

    ghost Value = { DayFacts };

    ghost view = { λ day. record { kind = day.kind; rows = day.rows; trips = day.trips; params = day.params.value; deads = day.deadheads.value } };

    ghost invariant = { λ day. AreInRange (record { kind = day.kind; rows = day.rows; trips = day.trips; params = day.params.value; deads = day.deadheads.value }) × AreLaidOut day.trips day.params.value day.deadheads.value day.layout.value };
}

impl Day {
    /// The version, the day type and the weekday of the day.
    pub fn kind(&self) -> &DayKind
        ensures { result.now ≡ self.now.kind }
    {
        &self.kind
    }

    /// The trips in the order of their numbers, from 0: by departure, then by FRT_FID. There are at most 3,000.
    pub fn trips(&self) -> &[Trip]
        ensures trips { result.now ≡ self.now.trips }
        ensures few { length result.now ≤ most_items }
        ensures daily { All IsDaily result.now }
    {
        self.trips.as_slice()
    }

    /// For each trip the place of its row in REC_FRT, from 0.
    pub fn rows(&self) -> &[u32]
        ensures rows { result.now ≡ self.now.rows }
        ensures count { length result.now ≡ length self.now.trips }
    {
        self.rows.as_slice()
    }

    /// The settings.
    pub fn params(&self) -> &Params
        ensures settings { result.now ≡ self.now.params }
        ensures ranges { HaveRanges result.now }
    {
        &self.params
    }

    /// A day of these parts.
    pub(crate) fn new(
        alloc: Global,
        kind: DayKind,
        rows: Seq<u32>,
        trips: Seq<Trip>,
        params: Params,
        deadheads: Deadheads,
        layout: Layout,
    ) -> Result<Day, Memory>
        requires count { length rows ≡ length trips }
        requires few { length trips ≤ most_items }
        requires daily { All IsDaily trips }
        requires ranges { HaveRanges params }
        requires layout { AreLaidOut trips params deadheads layout }
        ensures { IfOk result (λ day. day ≡ record { kind = kind; rows = rows; trips = trips; params = params; deads = deadheads }) }
    {
        Ok(Day {
            kind,
            rows,
            trips,
            params: Box::new(alloc, params)?,
            deadheads: Box::new(alloc, deadheads)?,
            layout: Box::new(alloc, layout)?,
        })
    }

    /// The trip of a number.
    pub fn trip(&self, number: u32) -> &Trip
        requires { number < length self.now.trips }
        ensures trip { slice_get self.now.trips number ≡ Some result.now }
        ensures daily { IsDaily result.now }
    {
        &self.trips()[number as usize]
    }

    /// The trips by the points at which they begin.
    pub fn departures(&self) -> Departures<'_>
        ensures { AreDepartures self.now.trips result.numbers.now result.firsts.now result.nexts.now }
    {
        let layout: &Layout = &self.layout;
        Departures {
            numbers: layout.begins.as_slice(),
            firsts: layout.firsts.as_slice(),
            nexts: layout.nexts.as_slice(),
        }
    }

    /// For each minute of two days, 0 to 2,880, a place such that no trip before it begins in the minute or later: the number of the first
    /// trip that does, or the number of trips where none does.
    pub fn by_minute(&self) -> &[u32]
        ensures { AreMinutes self.now.trips 2881 result.now }
    {
        let layout: &Layout = &self.layout;
        layout.minutes.as_slice()
    }

    /// For each trip a number of its last point: trips with one number end at one point. The numbers are dense, from 0.
    pub fn end_numbers(&self) -> &[u32]
        ensures { AreEndNumbers self.now.trips result.now }
    {
        let layout: &Layout = &self.layout;
        layout.ends.as_slice()
    }

    /// How long the deadhead from a trip to another takes, in seconds; none where there is none.
    pub fn between(&self, t: u32, u: u32) -> Option<u32>
        requires t { t < length self.now.trips }
        requires u { u < length self.now.trips }
        ensures value { result ≡ with_trip self.now t (λ trip. with_trip self.now u (λ next. dead self.now trip.to next.from)) }
        ensures range { IfSome result IsTime }
    {
        let layout: &Layout = &self.layout;
        let from = layout.ends.as_slice()[t as usize];
        let to = layout.begins.as_slice()[u as usize];
        time_at(&layout.between, from as usize, to as usize)
    }

    /// How long the deadhead from a pool's depot to a trip takes, in seconds; none where there is none.
    pub fn outward(&self, class: u32, u: u32) -> Option<u32>
        requires class { class < length self.now.params.pools }
        requires u { u < length self.now.trips }
        ensures value { result ≡ with_pool self.now class (λ pool. with_trip self.now u (λ next. dead self.now pool.depot next.from)) }
        ensures range { IfSome result IsTime }
    {
        let layout: &Layout = &self.layout;
        let to = layout.begins.as_slice()[u as usize];
        time_at(&layout.outward, class as usize, to as usize)
    }

    /// Whether a pool's vehicles may serve the line of a trip: X_LINIE_FZG has no row of the line, or one with the pool's type.
    pub fn admits(&self, class: u32, t: u32) -> bool
        requires class { class < length self.now.params.pools }
        requires trip { t < length self.now.trips }
        ensures { result ≡ admits_at self.now class t }
    {
        let layout: &Layout = &self.layout;
        layout.admitted.as_slice()[class as usize * self.trips.len() + t as usize]
    }

    /// Whether drivers are relieved at the first point of a trip: X_ABLOESE has it.
    pub fn begins_at_relief(&self, t: u32) -> bool
        requires { t < length self.now.trips }
        ensures { (trip : Trip) → slice_get self.now.trips t ≡ Some trip → result ≡ is_relief self.now trip.from }
    {
        let layout: &Layout = &self.layout;
        layout.relieved.as_slice()[t as usize]
    }

    /// How long the deadhead from a pool's depot to a trip takes: it arrives exactly at the trip's start. None where there is no such
    /// deadhead, and where it would leave before second 0.
    pub fn pull_out(&self, class: u32, t: u32) -> Option<u32>
        requires class { class < length self.now.params.pools }
        requires trip { t < length self.now.trips }
        ensures value { result ≡ pull_out_at self.now class t }
        ensures range { IfSome result IsTime }
    {
        timely_pull_out(self.trip(t), self.outward(class, t))
    }

    /// How long the deadhead from a trip to a pool's depot takes: it leaves at the trip's end. None where there is no such deadhead.
    pub fn pull_in(&self, class: u32, t: u32) -> Option<u32>
        requires class { class < length self.now.params.pools }
        requires trip { t < length self.now.trips }
        ensures value { result ≡ pull_in_at self.now class t }
        ensures range { IfSome result IsTime }
    {
        let layout: &Layout = &self.layout;
        let from = layout.ends.as_slice()[t as usize];
        time_at(&layout.inward, from as usize, class as usize)
    }

    /// How a vehicle of a pool goes from the end of a trip to the start of another: directly where the deadhead, the minimum layover and a
    /// stand of at most the greatest wait fit between them; else via the depot where both deadheads fit; else not at all.
    pub fn connect(&self, class: u32, t: u32, u: u32) -> Option<Link>
        requires class { class < length self.now.params.pools }
        requires trip { t < length self.now.trips }
        requires next { u < length self.now.trips }
        ensures link { result ≡ link_at self.now class t u }
        ensures range { IfSome result IsShort }
    {
        let settings = self.params.settings();
        let trip = self.trip(t);
        let next = self.trip(u);
        match direct(&settings, trip, next, self.between(t, u)) {
            Some(link) => Some(link),
            None => by_depot(trip, next, self.pull_in(class, t), self.outward(class, u)),
        }
    }
}
