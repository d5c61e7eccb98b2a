//! What of an earlier plan's duties has begun.

ghost use Rattle.std.specs.Prelude.{◌≡◌, ◌++◌, ◌<◌, ◌≤◌, IfOk, IfSome, OnOk, length};
ghost use Rattle.plan_core.specs.Limits.{most_items};
ghost use Rattle.cover_core.specs.Cover.{AllBelow};
ghost use Rattle.duty_rest.specs.Heads as spec;

use crate::begun_parts::{Part, begun_parts};
use crate::head::DutyHead;
use cover_core::Plan;
use duty_network::DutyNet;
use plan_core::{Memory, Seq};
use plan_params::Group;
use std::alloc::Global;
use umlauf_write::{DutyRow, PlanText};

/// Whether a piece has begun and this part stands for it.
fn is_part(begun: Option<Part>, part: (u32, u32)) -> bool
    ensures { result ≡ spec.is_part begun part }
{
    match begun {
        None => false,
        Some((block, index)) => block == u64::from(part.0) && index == part.1,
    }
}

/// Whether a piece has begun and one of these parts stands for it.
fn is_one_of(begun: Option<Part>, parts: &[(u32, u32)]) -> bool
    ensures { result ≡ spec.is_one_of begun parts.now }
{
    for part in parts {
        if is_part(begun, *part) {
            return true;
        }
    }
    false
}

/// The begun pieces of a duty with these parts, by number.
fn begun_pieces(
    alloc: Global,
    begun: &[Option<Part>],
    parts: &[(u32, u32)],
) -> Result<Seq<u32>, Memory>
    requires few { length begun.now ≤ most_items }
    ensures pieces { IfOk result (λ pieces. pieces ≡ spec.begun_from begun.now parts.now 0) }
{
    let mut pieces = Seq::new(alloc);
    let mut number = 0;
    for piece in begun {
        if is_one_of(*piece, parts) {
            pieces.push(number)?;
        }
        number += 1;
    }
    Ok(pieces)
}

/// Whether a part stands for a begun piece.
fn has_begun(begun: &[Option<Part>], part: (u32, u32)) -> bool
    ensures { result ≡ spec.has_begun begun.now part }
{
    for piece in begun {
        if is_part(*piece, part) {
            return true;
        }
    }
    false
}

/// Whether each part stands for a begun piece.
fn all_begun(begun: &[Option<Part>], parts: &[(u32, u32)]) -> bool
    ensures { result ≡ spec.all_begun begun.now parts.now }
{
    for part in parts {
        if !has_begun(begun, *part) {
            return false;
        }
    }
    true
}

/// The class of a group's number.
fn class_of(groups: &[Group], number: u32) -> Option<u32>
    requires { length groups.now ≤ 32 }
    ensures class { result ≡ spec.class_of groups.now number 0 }
    ensures there { IfSome result (λ class. class < length groups.now) }
{
    let mut class = 0;
    for group in groups {
        if group.number == number {
            return Some(class);
        }
        class += 1;
    }
    None
}

/// Whether the way home after a piece is there, and the sign-off after it is before the moment.
fn is_off_before(net: &DutyNet<'_>, moment: u32, class: u32, piece: u32) -> bool
    requires class { class < length net.now.params.groups }
    requires piece { piece < length net.now.pieces }
    ensures { result ≡ spec.is_off_before net.now moment class piece }
{
    let sign_off = net.group(class).sign_off;
    let end = net.piece(piece).end.0;
    match net.to_home(class, piece) {
        None => false,
        Some(way) => end + i64::from(way) + i64::from(sign_off) < i64::from(moment),
    }
}

/// The head of a duty with these parts, whose begun pieces these are, where there are some.
fn head_of(
    net: &DutyNet<'_>,
    begun: &[Option<Part>],
    moment: u32,
    parts: &[(u32, u32)],
    class: u32,
    pieces: Seq<u32>,
) -> Option<DutyHead>
    requires class { class < length net.now.params.groups }
    requires pieces { AllBelow (length net.now.pieces) pieces }
    ensures { result ≡ spec.head_of net.now begun.now moment parts.now class pieces }
{
    let last = pieces.as_slice().last().copied()?;
    let over = all_begun(begun, parts);
    let off = is_off_before(net, moment, class, last);
    Some(DutyHead {
        class,
        pieces,
        finished: over && off,
    })
}

/// The head of a duty of the earlier plan, if its group is there and it has begun.
fn duty_head(
    alloc: Global,
    net: &DutyNet<'_>,
    begun: &[Option<Part>],
    moment: u32,
    row: &DutyRow,
) -> Result<Option<DutyHead>, Memory>
    requires { length begun.now ≡ length net.now.pieces }
    ensures { IfOk result (λ head. head ≡ spec.duty_head net.now begun.now moment row.now) }
{
    // Pieces are few: the net says so.
    let _ = net.pieces();
    let parts = row.parts.as_slice();
    match class_of(net.groups(), row.group) {
        None => Ok(None),
        Some(class) => {
            let pieces = begun_pieces(alloc, begun, parts)?;
            Ok(head_of(net, begun, moment, parts, class, pieces))
        }
    }
}

/// Puts a head last, if it is there.
fn add_head(head: Option<DutyHead>, heads: &mut Seq<DutyHead>) -> Result<(), Memory>
    ensures { OnOk result (heads.new ≡ heads.old ++ spec.listed head) }
{
    match head {
        None => Ok(()),
        Some(head) => heads.push(head),
    }
}

/// The heads of duties, in the order of the duties.
fn row_heads(
    alloc: Global,
    net: &DutyNet<'_>,
    begun: &[Option<Part>],
    moment: u32,
    rows: &[DutyRow],
) -> Result<Seq<DutyHead>, Memory>
    requires { length begun.now ≡ length net.now.pieces }
    ensures { IfOk result (λ heads. heads ≡ spec.row_heads net.now begun.now moment rows.now) }
{
    let mut heads = Seq::new(alloc);
    for row in rows {
        let head = duty_head(alloc, net, begun, moment, row)?;
        add_head(head, &mut heads)?;
    }
    Ok(heads)
}

/// Whether a head's first piece is this one.
fn starts_at(piece: u32, head: &DutyHead) -> bool
    ensures { result ≡ spec.starts_at piece head.now }
{
    match head.pieces.as_slice().first() {
        None => false,
        Some(first) => *first == piece,
    }
}

/// A head in memory of its own.
fn copy_of_head(head: &DutyHead) -> Result<DutyHead, Memory>
    ensures { IfOk result (λ copy. copy ≡ head.now) }
{
    Ok(DutyHead {
        class: head.class,
        pieces: head.pieces.with_items(head.pieces.as_slice())?,
        finished: head.finished,
    })
}

/// Puts the heads last whose first piece is this one.
fn add_heads_at(rows: &[DutyHead], first: u32, heads: &mut Seq<DutyHead>) -> Result<(), Memory>
    ensures { OnOk result (heads.new ≡ heads.old ++ spec.heads_at rows.now first) }
{
    for head in rows {
        if starts_at(first, head) {
            heads.push(copy_of_head(head)?)?;
        }
    }
    Ok(())
}

/// The heads whose first piece is one of so many, by their first pieces.
fn by_first(alloc: Global, rows: &[DutyHead], count: u32) -> Result<Seq<DutyHead>, Memory>
    ensures { IfOk result (λ heads. heads ≡ spec.by_first rows.now count 0) }
{
    let mut heads = Seq::new(alloc);
    for first in 0..count {
        add_heads_at(rows, first, &mut heads)?;
    }
    Ok(heads)
}

/// What has begun of an earlier plan's duties before a moment, in seconds: for each duty that has begun pieces its group and these pieces.
/// A piece of the new blocks has begun where it begins before the moment; it belongs to the duty that has the piece of the same index in
/// the earlier block with the same first trip (of several such blocks the first counts). A head is finished where for each piece of its
/// duty there is such a begun piece, the way home from the last begun piece is there, and the sign-off after that piece is before the
/// moment. The numbers of the earlier blocks are their places, from 1; `blocks` are those of which the net has the pieces. A duty whose
/// group is not there has no head. The heads are ordered by their first pieces. It takes time in proportion to the pieces times the
/// earlier plan's blocks, duties and pieces. `Memory` is the only error.
pub fn duty_heads(
    alloc: Global,
    net: &DutyNet<'_>,
    blocks: &Plan,
    earlier: &PlanText,
    moment: u32,
) -> Result<Seq<DutyHead>, Memory>
    ensures { IfOk result (λ heads. heads ≡ spec.duty_heads_of net.now blocks.now.columns earlier.now moment) }
{
    let pieces = net.pieces();
    let begun = begun_parts(
        alloc,
        blocks.columns.as_slice(),
        earlier.blocks.columns.as_slice(),
        moment,
        pieces,
    )?;
    let rows = row_heads(
        alloc,
        net,
        begun.as_slice(),
        moment,
        earlier.duties.as_slice(),
    )?;
    by_first(alloc, rows.as_slice(), pieces.len() as u32)
}
