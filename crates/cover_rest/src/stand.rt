//! What the items of a rest stand for.

ghost use Rattle.std.specs.Prelude.{◌≡◌, ◌++◌, ◌∷◌, ◌<◌, [], IfOk, OnOk, false, length, replicate};
ghost use Rattle.cover_rest.specs.Rest as spec;
ghost use Rattle.cover_rest.specs.Marks.{all_marked, free_of, marked};

use crate::begun::Begun;
use plan_core::{Memory, Seq};
use std::alloc::Global;

/// Marks the items of a list, as far as there is a mark for them.
fn mark(marks: &mut Vec<bool>, list: &[u32])
    ensures { marks.new.items ≡ marked list.now marks.old.items }
{
    for item in list {
        if (*item as usize) < marks.len() {
            marks[*item as usize] = true;
        }
    }
}

/// For each of so many items whether it stands in a head.
fn begun_items(alloc: Global, heads: &[Begun], items: u32) -> Result<Vec<bool>, Memory>
    ensures { IfOk result (λ marks. marks.items ≡ all_marked heads.now (replicate items false)) }
{
    let mut marks = vec![in alloc; false; items as usize]?;
    for head in heads {
        mark(&mut marks, head.items.as_slice());
    }
    Ok(marks)
}

/// Puts the items of each head last, as a list.
fn add_heads(heads: &[Begun], bodies: &mut Seq<Seq<u32>>) -> Result<(), Memory>
    ensures { OnOk result (bodies.new ≡ bodies.old ++ spec.begun_lists heads.now) }
{
    for head in heads {
        bodies.push(head.items.with_items(head.items.as_slice())?)?;
    }
    Ok(())
}

/// A list of one item.
fn single(alloc: Global, item: u32) -> Result<Seq<u32>, Memory>
    ensures { IfOk result (λ list. list ≡ item ∷ []) }
{
    let mut list = Seq::new(alloc);
    list.push(item)?;
    Ok(list)
}

/// Puts each item that is not marked last, as a list, by number.
fn add_free(alloc: Global, marks: &[bool], bodies: &mut Seq<Seq<u32>>) -> Result<(), Memory>
    requires { length marks.now < 4294967296 }
    ensures { OnOk result (bodies.new ≡ bodies.old ++ free_of 0 marks.now) }
{
    let mut item = 0;
    for is_begun in marks {
        if !*is_begun {
            bodies.push(single(alloc, item)?)?;
        }
        item += 1;
    }
    Ok(())
}

/// What the items of the rest of a problem with so many items stand for, when these heads have begun: first the items of each head, in
/// the heads' order, and then each item in no head as a list of its own, by number. `Memory` is the only error. It takes time in
/// proportion to the items and those of all heads.
pub fn bodies(alloc: Global, heads: &[Begun], items: u32) -> Result<Seq<Seq<u32>>, Memory>
    ensures { IfOk result (λ bodies. bodies ≡ spec.bodies heads.now items) }
{
    let marks = begun_items(alloc, heads, items)?;
    let mut bodies = Seq::new(alloc);
    add_heads(heads, &mut bodies)?;
    add_free(alloc, marks.as_slice(), &mut bodies)?;
    Ok(bodies)
}

/// What an item of the rest stands for, of what all its items stand for, as `bodies` finds it: the items of a head, or one item. An item
/// past the end stands for nothing.
pub fn body(bodies: &[Seq<u32>], item: u32) -> &[u32]
    ensures { result.now ≡ spec.body_at bodies.now item }
{
    match bodies.get(item as usize) {
        None => [].as_slice(),
        Some(body) => body.as_slice(),
    }
}
