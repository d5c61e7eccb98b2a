//! The class prices of a certificate, and the bounds that its prices show.
#![tactic(auto)]

ghost use Rattle.std.specs.Prelude.{◌≡◌, ◌≤◌, ◌<◌, ◌+◌, ◌^◌, IfErr, IfNone, IfOk, IfSome, length, map};
ghost use Rattle.cover_core.specs.Plans.{bound_of};
ghost use Rattle.cert_check.specs.Parts.{listed};
ghost use Rattle.cert_check.specs.Reasons.{AllCharged, AreCharged, AreShown, HasCert, HasTables, IsAccepted, IsCharged, IsCovered, IsFirstNegative, IsNegative, IsTooHigh, caps_of, printed_pieces};
ghost use Rattle.cert_check.specs.Steps.{AreBounding, AreLow, HaveFewClasses, IsBounding, IsFirstHigh, IsStop, first_negative as first_negative_of};

use crate::case::Case;
use crate::parts::{FourParts, four_parts};
use crate::reason::Reason;
use crate::stop::Stop;
use cover_core::Plan;
use dual_bound::bound;
use plan_cert::{Cert, CertFault, CertPart, read_cert};
use plan_params::{Group, Pool};
use std::alloc::{AllocError, Global};
use umlauf_write::PlanText;

/// The certificate that the tables say of a plan with so many pieces.
pub(crate) fn certificate(
    alloc: Global,
    case: &Case<'_>,
    text: &PlanText,
    blocks: &Plan,
    duties: &Plan,
    pieces: u32,
) -> Result<Cert, Stop>
    requires has { HasTables case.now text.now blocks.now duties.now }
    requires pieces { pieces ≡ length (printed_pieces case.now blocks.now) }
    ensures cert { IfOk result (λ cert. HasCert case.now text.now blocks.now duties.now cert) }
    ensures stop { IfErr result (IsStop case.now) }
{
    match read_cert(alloc, case.cert, case.day, pieces) {
        Ok(cert) => Ok(cert),
        Err(CertFault::Form(at)) => Err(Stop::Against(Reason::CertForm { at })),
        Err(CertFault::Memory) => Err(Stop::Memory),
    }
}

/// The place of the first price below 0.
fn place_below(class_prices: &[i64]) -> Option<usize>
    ensures place { result ≡ first_negative_of class_prices.now }
    ensures within { IfSome result (λ place. place < length class_prices.now) }
{
    class_prices.iter().position(|price| *price < 0)
}

/// The first class whose price is below 0.
fn first_negative(class_prices: &[i64]) -> Option<u32>
    requires { length class_prices.now ≤ 32 }
    ensures { result ≡ first_negative_of class_prices.now }
{
    match place_below(class_prices) {
        Some(place) => Some(place as u32),
        None => None,
    }
}

/// A class price below 0.
#[derive(Clone, Copy)]
pub struct Negative {
    /// The pass, from 1.
    pub pass: u32,
    /// The class, from 0.
    pub class: u32,
}

/// A class price below 0 of a pass.
fn negative_of(pass: u32, part: &CertPart) -> Option<Negative>
    requires { length part.now.class_prices ≤ 32 }
    ensures some { IfSome result (λ found. (found.pass ≡ pass) × IsNegative part.now found.class) }
    ensures none { IfNone result (AreCharged part.now (length part.now.class_prices)) }
{
    match first_negative(part.class_prices.as_slice()) {
        Some(class) => Some(Negative { pass, class }),
        None => None,
    }
}

/// The first class price below 0.
fn negative_in(parts: FourParts<'_>) -> Option<Negative>
    requires { HaveFewClasses (listed parts) }
    ensures some { IfSome result (λ found. IsFirstNegative 1 (listed parts.entry) found.pass found.class) }
    ensures none { IfNone result (AllCharged (listed parts.entry)) }
{
    if let Some(found) = negative_of(1, parts.block_number) {
        return Some(found);
    }
    if let Some(found) = negative_of(2, parts.block_cost) {
        return Some(found);
    }
    if let Some(found) = negative_of(3, parts.duty_number) {
        return Some(found);
    }
    negative_of(4, parts.duty_cost)
}

/// Tests that no class price of a certificate is below 0.
pub(crate) fn check_class_prices(
    case: &Case<'_>,
    text: &PlanText,
    blocks: &Plan,
    duties: &Plan,
    cert: &Cert,
) -> Result<(), Stop>
    requires { HasCert case.now text.now blocks.now duties.now cert.now }
    ensures charged { IfOk result (λ _. IsCharged case.now text.now blocks.now duties.now cert.now) }
    ensures stop { IfErr result (IsStop case.now) }
{
    // There are at most 32 pools and 32 groups of drivers: they say so.
    let _ = case.day.params().pools();
    let _ = case.day.params().groups();
    match negative_in(four_parts(cert)) {
        None => Ok(()),
        Some(found) => Err(Stop::Against(Reason::NegativeClassPrice {
            pass: found.pass,
            class: found.class,
        })),
    }
}

/// A bound that is higher than the one that the prices show.
#[derive(Clone, Copy)]
pub struct TooHigh {
    /// The pass, from 1.
    pub pass: u32,
    /// The printed bound.
    pub printed: u64,
    /// The bound of the prices.
    pub shown: u64,
}

/// Whether a printed bound of a pass is higher than the one that a part shows.
fn too_high(pass: u32, printed: u64, caps: &[u32], part: &CertPart) -> Option<TooHigh>
    requires { IsBounding caps.now part.now }
    ensures some { IfSome result (λ found. (found.pass ≡ pass) × IsTooHigh found.printed found.shown printed (bound_of part.now.prices.items part.now.class_prices caps.now)) }
    ensures none { IfNone result (printed ≤ bound_of part.now.prices.items part.now.class_prices caps.now) }
{
    let shown = bound(&part.prices, part.class_prices.as_slice(), caps);
    if shown < printed {
        Some(TooHigh {
            pass,
            printed,
            shown,
        })
    } else {
        None
    }
}

/// The caps of both kinds of classes.
#[derive(Drop)]
pub struct Caps {
    /// How many vehicles the pools have.
    pub pools: Vec<u32>,
    /// How many drivers the groups have.
    pub groups: Vec<u32>,
}

/// How many vehicles pools have.
fn pool_caps(alloc: Global, pools: &[Pool]) -> Result<Vec<u32>, AllocError>
    ensures { IfOk result (λ caps. caps.items ≡ map (λ pool. pool.cap) pools.now) }
{
    pools.iter().map(|pool| pool.cap).collect(alloc)
}

/// How many drivers groups have.
fn group_caps(alloc: Global, groups: &[Group]) -> Result<Vec<u32>, AllocError>
    ensures { IfOk result (λ caps. caps.items ≡ map (λ group. group.cap) groups.now) }
{
    groups.iter().map(|group| group.cap).collect(alloc)
}

/// The first bound of a plan that is higher than the one that the prices of its pass show.
fn high_in(bounds: &[u64], caps: &Caps, parts: FourParts<'_>) -> Option<TooHigh>
    requires bounding { AreBounding caps.now.pools.items caps.now.groups.items parts }
    requires four { length bounds.now ≡ 4 }
    ensures some { IfSome result (λ found. IsFirstHigh bounds.now caps.now.pools.items caps.now.groups.items parts.entry found) }
    ensures none { IfNone result (AreLow bounds.now caps.now.pools.items caps.now.groups.items parts.entry) }
{
    let pools = caps.pools.as_slice();
    let groups = caps.groups.as_slice();
    if let Some(found) = too_high(1, bounds[0], pools, parts.block_number) {
        return Some(found);
    }
    if let Some(found) = too_high(2, bounds[1], pools, parts.block_cost) {
        return Some(found);
    }
    if let Some(found) = too_high(3, bounds[2], groups, parts.duty_number) {
        return Some(found);
    }
    too_high(4, bounds[3], groups, parts.duty_cost)
}

/// Tests that no bound of the plan is higher than the one that the prices of its pass show.
pub(crate) fn bounds_shown(
    alloc: Global,
    case: &Case<'_>,
    text: &PlanText,
    blocks: &Plan,
    duties: &Plan,
    cert: &Cert,
) -> Result<(), Stop>
    requires { IsCovered case.now text.now blocks.now duties.now cert.now }
    ensures shown { IfOk result (λ _. IsAccepted case.now text.now blocks.now duties.now cert.now) }
    ensures stop { IfErr result (IsStop case.now) }
{
    // The trips of a day are few: it says so.
    let _ = case.day.trips();
    let params = case.day.params();
    let caps = Caps {
        pools: pool_caps(alloc, params.pools())?,
        groups: group_caps(alloc, params.groups())?,
    };
    match high_in(text.bounds.as_slice(), &caps, four_parts(cert)) {
        None => Ok(()),
        Some(found) => Err(Stop::Against(Reason::BoundTooHigh {
            pass: found.pass,
            printed: found.printed,
            shown: found.shown,
        })),
    }
}
