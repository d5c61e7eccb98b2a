//! The nodes of all lists that are kept, made item by item.
//!
//! Nodes are made with rising items, and within an item in the order of the nodes that they extend. So they stand in the order of their
//! lists compared from the last items backwards, and no list is ever compared.
#![tactic(auto)]

ghost use Rattle.std.specs.Prelude.{◌≡◌, [], ◌∷◌, ◌++◌, ◌<◌, ◌≤◌, ◌≤ℤ◌, ◌+◌, ◌-◌, length, take, drop, IfOk, OnOk, filter, fold};
ghost use Rattle.std.specs.List.{list_any};
ghost use Rattle.cover_core.specs.Plans.{number_at};
ghost use Rattle.label_search.specs.Levels.{AllAtLeast, AreLevels, AreUnfollowed, EndsAt, IsOfLevel, NoneFollowsAbove, NoneReachesAbove, level_so_far};
ghost use Rattle.label_search.specs.Limits.{limited};
ghost use Rattle.label_search.specs.Nodes.{AllSound, is_beaten_node, insert_node, level_of, node_of, nodes_below, stays_beside, values_of, without};

use crate::labels::Labels;
use crate::node::{Level, Node};
use label_store::Stock;
use plan_core::Memory;
use std::alloc::Global;

/// The nodes of a search and of the level that is being made, the values of those that are kept, in their order, the levels, and a value
/// that no label of the nodes is below.
#[derive(Drop)]
pub struct Nodes<L: Copy> {
    pub stock: Stock<Node<L>>,
    pub values: Vec<i64>,
    pub levels: Vec<Level>,
    pub least: i64,
}

impl<L: Copy> Nodes<L> {
    /// No nodes.
    pub fn new(alloc: Global) -> Nodes<L> {
        Nodes {
            stock: Stock::new(alloc),
            values: Vec::new(alloc),
            levels: Vec::new(alloc),
            least: i64::MAX,
        }
    }
}

/// Whether some made node's label is at least as good.
fn is_beaten<W: Labels>(labels: &W, stock: &Stock<Node<W::Label>>, label: &W::Label) -> bool
    ensures { result ≡ list_any (is_beaten_node (W.good labels.now) label.now) stock.now.made }
{
    for place in 0..stock.made_count() {
        if labels.is_as_good(&stock.made_at(place).label, label) {
            return true;
        }
    }
    false
}

/// Whether a node stays beside a label, which does not beat it.
fn stays<W: Labels>(labels: &W, label: &W::Label, node: &Node<W::Label>) -> bool
    ensures { result ≡ stays_beside (W.good labels.now) (W.value_at labels.now) label.now node.now }
{
    !(labels.is_as_good(label, &node.label) && labels.value(label) < labels.value(&node.label))
}

/// Takes out the made node at a place, where a label beats it.
fn take_beaten<W: Labels>(
    labels: &W,
    stock: &mut Stock<Node<W::Label>>,
    label: &W::Label,
    place: usize,
)
    requires { place < length stock.old.made }
    ensures kept { stock.new.kept ≡ stock.old.kept }
    ensures made { stock.new.made ≡ without (stays_beside (W.good labels.now) (W.value_at labels.now) label.now) place stock.old.made }
{
    if !stays(labels, label, stock.made_at(place)) {
        stock.take_out(place);
    }
}

/// Takes out the made nodes that a label beats.
fn take_out<W: Labels>(labels: &W, stock: &mut Stock<Node<W::Label>>, label: &W::Label)
    ensures kept { stock.new.kept ≡ stock.old.kept }
    ensures made { stock.new.made ≡ filter (stays_beside (W.good labels.now) (W.value_at labels.now) label.now) stock.old.made }
{
    let mut place = stock.made_count();
    while place > 0 {
        place -= 1;
        take_beaten(labels, stock, label, place);
    }
}

/// Puts a node last, unless another one is at least as good, and takes out those that it beats.
fn insert<W: Labels>(
    labels: &W,
    stock: &mut Stock<Node<W::Label>>,
    node: Node<W::Label>,
) -> Result<(), Memory>
    ensures kept { stock.new.kept ≡ stock.old.kept }
    ensures made { OnOk result (stock.new.made ≡ insert_node (W.good labels.now) (W.value_at labels.now) stock.old.made node) }
{
    if is_beaten(labels, stock, &node.label) {
        return Ok(());
    }
    take_out(labels, stock, &node.label);
    stock.push(node)
}

/// Puts the node of a label last, where there is a label.
fn insert_some<W: Labels>(
    labels: &W,
    stock: &mut Stock<Node<W::Label>>,
    label: Option<W::Label>,
    item: u32,
    before: u32,
) -> Result<(), Memory>
    ensures kept { stock.new.kept ≡ stock.old.kept }
    ensures made { OnOk result (stock.new.made ≡ fold (insert_node (W.good labels.now) (W.value_at labels.now)) stock.old.made (node_of item before label)) }
{
    match label {
        Some(label) => insert(
            labels,
            stock,
            Node {
                label,
                item,
                before,
            },
        ),
        None => Ok(()),
    }
}

/// The value at a place.
fn at(values: &[i64], place: usize) -> i64
    requires { place < length values.now }
    ensures { result ≡ number_at values.now place }
{
    values[place]
}

/// Puts in the extension of a node, unless its value is above the most with which one goes on.
fn extend_one<W: Labels>(
    labels: &W,
    stock: &mut Stock<Node<W::Label>>,
    values: &[i64],
    place: u32,
    most: i64,
    item: u32,
    limit: i64,
) -> Result<(), Memory>
    requires item { item < W.count labels.now }
    requires there { place < length stock.old.kept }
    requires few { length stock.old.kept < 4294967295 }
    requires sound { AllSound (W.sound labels.now) stock.old.kept }
    requires values { values.now ≡ values_of (W.value_at labels.now) stock.old.kept }
    requires above { AreUnfollowed (W.labelling labels.now) (W.value_at labels.now) (W.may_close labels.now limit) item most (take 1 (drop place stock.old.kept)) }
    requires so_far { stock.old.made ≡ level_so_far (limited (W.labelling labels.now) (W.may_close labels.now limit)) (W.good labels.now) (W.value_at labels.now) stock.old.kept item place }
    ensures kept { stock.new.kept ≡ stock.old.kept }
    ensures made { OnOk result (stock.new.made ≡ level_so_far (limited (W.labelling labels.now) (W.may_close labels.now limit)) (W.good labels.now) (W.value_at labels.now) stock.old.kept item (place + 1)) }
{
    if at(values, place as usize) > most {
        return Ok(());
    }
    let label = labels.extend(&stock.kept_at(place as usize).label, item, limit);
    insert_some(labels, stock, label, item, place + 1)
}

/// Puts in the extensions of a level's nodes, the first of which has this place and none of which goes on with a value above the most.
fn extend_all<W: Labels>(
    labels: &W,
    stock: &mut Stock<Node<W::Label>>,
    values: &[i64],
    from: u32,
    level: &Level,
    most: i64,
    item: u32,
    limit: i64,
) -> Result<(), Memory>
    requires item { item < W.count labels.now }
    requires order { from ≤ level.now.end }
    requires there { level.now.end ≤ length stock.old.kept }
    requires few { length stock.old.kept < 4294967295 }
    requires sound { AllSound (W.sound labels.now) stock.old.kept }
    requires values { values.now ≡ values_of (W.value_at labels.now) stock.old.kept }
    requires level { AllSound (IsOfLevel (W.sound labels.now) (W.last labels.now) (W.value_at labels.now) level.now) (take (level.now.end - from) (drop from stock.old.kept)) }
    requires most { NoneFollowsAbove (W.labelling labels.now) (W.sound labels.now) (W.last labels.now) (W.value_at labels.now) (W.may_close labels.now limit) level.now.item item most }
    requires so_far { stock.old.made ≡ level_so_far (limited (W.labelling labels.now) (W.may_close labels.now limit)) (W.good labels.now) (W.value_at labels.now) stock.old.kept item from }
    ensures kept { stock.new.kept ≡ stock.old.kept }
    ensures made { OnOk result (stock.new.made ≡ level_so_far (limited (W.labelling labels.now) (W.may_close labels.now limit)) (W.good labels.now) (W.value_at labels.now) stock.old.kept item level.now.end) }
{
    stock.reserve(level.end - from)?;
    for place in from..level.end {
        extend_one(labels, stock, values, place, most, item, limit)?;
    }
    Ok(())
}

/// Puts in the extensions of a level's nodes, the first of which has this place, unless there is none: no node goes on with a value above
/// `reach`.
fn follow<W: Labels>(
    labels: &W,
    stock: &mut Stock<Node<W::Label>>,
    values: &[i64],
    from: u32,
    level: &Level,
    reach: i64,
    item: u32,
    limit: i64,
) -> Result<(), Memory>
    requires item { item < W.count labels.now }
    requires reach { NoneReachesAbove (W.labelling labels.now) (W.sound labels.now) (W.value_at labels.now) (W.may_close labels.now limit) item reach }
    requires level { AllSound (IsOfLevel (W.sound labels.now) (W.last labels.now) (W.value_at labels.now) level.now) (take (level.now.end - from) (drop from stock.old.kept)) }
    requires order { from ≤ level.now.end }
    requires there { level.now.end ≤ length stock.old.kept }
    requires few { length stock.old.kept < 4294967295 }
    requires sound { AllSound (W.sound labels.now) stock.old.kept }
    requires values { values.now ≡ values_of (W.value_at labels.now) stock.old.kept }
    requires so_far { stock.old.made ≡ level_so_far (limited (W.labelling labels.now) (W.may_close labels.now limit)) (W.good labels.now) (W.value_at labels.now) stock.old.kept item from }
    ensures kept { stock.new.kept ≡ stock.old.kept }
    ensures made { OnOk result (stock.new.made ≡ level_so_far (limited (W.labelling labels.now) (W.may_close labels.now limit)) (W.good labels.now) (W.value_at labels.now) stock.old.kept item level.now.end) }
{
    if level.least > reach {
        return Ok(());
    }
    match labels.most_following(level.item, item, limit) {
        None => Ok(()),
        Some(most) => {
            if level.least <= most {
                extend_all(labels, stock, values, from, level, most, item, limit)
            } else {
                Ok(())
            }
        }
    }
}

/// Puts in the extensions of the nodes of the levels, none of which goes on with a value above `reach`.
fn follow_all<W: Labels>(
    labels: &W,
    stock: &mut Stock<Node<W::Label>>,
    values: &[i64],
    levels: &[Level],
    reach: i64,
    item: u32,
    limit: i64,
) -> Result<(), Memory>
    requires item { item < W.count labels.now }
    requires few { length stock.old.kept < 4294967295 }
    requires sound { AllSound (W.sound labels.now) stock.old.kept }
    requires values { values.now ≡ values_of (W.value_at labels.now) stock.old.kept }
    requires levels { AreLevels (W.sound labels.now) (W.last labels.now) (W.value_at labels.now) 0 stock.old.kept levels.now }
    requires reach { NoneReachesAbove (W.labelling labels.now) (W.sound labels.now) (W.value_at labels.now) (W.may_close labels.now limit) item reach }
    requires so_far { stock.old.made ≡ level_so_far (limited (W.labelling labels.now) (W.may_close labels.now limit)) (W.good labels.now) (W.value_at labels.now) stock.old.kept item 0 }
    ensures kept { stock.new.kept ≡ stock.old.kept }
    ensures made { OnOk result (stock.new.made ≡ level_of (limited (W.labelling labels.now) (W.may_close labels.now limit)) (W.good labels.now) (W.value_at labels.now) stock.old.kept item) }
{
    let mut from = 0;
    for level in levels {
        follow(labels, stock, values, from, level, reach, item, limit)?;
        from = level.end;
    }
    Ok(())
}

/// Makes the nodes of the lists that end with an item, from the nodes of the items before it.
fn make_item<W: Labels>(
    labels: &W,
    stock: &mut Stock<Node<W::Label>>,
    values: &[i64],
    levels: &[Level],
    least: i64,
    item: u32,
    limit: i64,
) -> Result<(), Memory>
    requires item { item < W.count labels.now }
    requires few { length stock.old.kept < 4294967295 }
    requires sound { AllSound (W.sound labels.now) stock.old.kept }
    requires values { values.now ≡ values_of (W.value_at labels.now) stock.old.kept }
    requires least { AllAtLeast (W.value_at labels.now) least stock.old.kept }
    requires levels { AreLevels (W.sound labels.now) (W.last labels.now) (W.value_at labels.now) 0 stock.old.kept levels.now }
    requires empty { stock.old.made ≡ [] }
    ensures kept { stock.new.kept ≡ stock.old.kept }
    ensures made { OnOk result (stock.new.made ≡ level_of (limited (W.labelling labels.now) (W.may_close labels.now limit)) (W.good labels.now) (W.value_at labels.now) stock.old.kept item) }
{
    insert_some(labels, stock, labels.start(item, limit), item, 0)?;
    match labels.most_reaching(item, limit) {
        None => Ok(()),
        Some(reach) => {
            if least <= reach {
                follow_all(labels, stock, values, levels, reach, item, limit)
            } else {
                Ok(())
            }
        }
    }
}

/// The lower of two values.
fn lower(a: i64, b: i64) -> i64
    ensures first { result ≤ℤ a }
    ensures second { result ≤ℤ b }
{
    if a < b { a } else { b }
}

/// Puts a level last.
fn push_level(levels: &mut Vec<Level>, level: Level) -> Result<(), Memory>
    ensures { OnOk result (levels.new.items ≡ levels.old.items ++ level ∷ []) }
{
    match levels.push(level) {
        Ok(()) => Ok(()),
        Err(_) => Err(Memory),
    }
}

/// Puts a value last.
fn push_value(values: &mut Vec<i64>, value: i64) -> Result<(), Memory>
    ensures { OnOk result (values.new.items ≡ values.old.items ++ value ∷ []) }
{
    match values.push(value) {
        Ok(()) => Ok(()),
        Err(_) => Err(Memory),
    }
}

/// Puts the values of the made nodes last, and answers a value that none of them is below: the least.
fn keep_values<W: Labels>(
    labels: &W,
    stock: &Stock<Node<W::Label>>,
    values: &mut Vec<i64>,
) -> Result<i64, Memory>
    ensures values { OnOk result (values.new.items ≡ values.old.items ++ values_of (W.value_at labels.now) stock.now.made) }
    ensures least { IfOk result (λ least. AllAtLeast (W.value_at labels.now) least stock.now.made) }
{
    let mut least = i64::MAX;
    for place in 0..stock.made_count() {
        let value = labels.value(&stock.made_at(place).label);
        push_value(values, value)?;
        least = lower(least, value);
    }
    Ok(least)
}

/// Puts the level that was made behind the others, where it has nodes.
fn keep_level<W: Labels>(labels: &W, item: u32, nodes: &mut Nodes<W::Label>) -> Result<(), Memory>
    requires few { length nodes.old.stock.kept < 4294967295 }
    requires values { nodes.old.values.items ≡ values_of (W.value_at labels.now) nodes.old.stock.kept }
    requires least { AllAtLeast (W.value_at labels.now) nodes.old.least nodes.old.stock.kept }
    requires levels { AreLevels (W.sound labels.now) (W.last labels.now) (W.value_at labels.now) 0 nodes.old.stock.kept nodes.old.levels.items }
    requires made { AllSound (EndsAt (W.sound labels.now) (W.last labels.now) item) nodes.old.stock.made }
    ensures nodes { OnOk result (nodes.new.stock.kept ≡ nodes.old.stock.kept ++ nodes.old.stock.made) }
    ensures empty { OnOk result (nodes.new.stock.made ≡ []) }
    ensures few { OnOk result (length nodes.new.stock.kept < 4294967295) }
    ensures values { OnOk result (nodes.new.values.items ≡ values_of (W.value_at labels.now) nodes.new.stock.kept) }
    ensures least { OnOk result (AllAtLeast (W.value_at labels.now) nodes.new.least nodes.new.stock.kept) }
    ensures levels { OnOk result (AreLevels (W.sound labels.now) (W.last labels.now) (W.value_at labels.now) 0 nodes.new.stock.kept nodes.new.levels.items) }
{
    if nodes.stock.made_count() == 0 {
        return Ok(());
    }
    let least = keep_values(labels, &nodes.stock, &mut nodes.values)?;
    nodes.stock.keep_made()?;
    nodes.least = lower(nodes.least, least);
    let end = nodes.stock.kept_count();
    if end >= 4294967295 {
        return Err(Memory);
    }
    push_level(
        &mut nodes.levels,
        Level {
            item,
            end: end as u32,
            least,
        },
    )?;
    Ok(())
}

/// Adds the nodes of the lists that end with an item.
fn add_item<W: Labels>(
    labels: &W,
    item: u32,
    limit: i64,
    nodes: &mut Nodes<W::Label>,
) -> Result<(), Memory>
    requires item { item < W.count labels.now }
    requires few { length nodes.old.stock.kept < 4294967295 }
    requires nodes { nodes.old.stock.kept ≡ nodes_below (limited (W.labelling labels.now) (W.may_close labels.now limit)) (W.good labels.now) (W.value_at labels.now) item }
    requires values { nodes.old.values.items ≡ values_of (W.value_at labels.now) nodes.old.stock.kept }
    requires least { AllAtLeast (W.value_at labels.now) nodes.old.least nodes.old.stock.kept }
    requires levels { AreLevels (W.sound labels.now) (W.last labels.now) (W.value_at labels.now) 0 nodes.old.stock.kept nodes.old.levels.items }
    requires empty { nodes.old.stock.made ≡ [] }
    ensures nodes { OnOk result (nodes.new.stock.kept ≡ nodes_below (limited (W.labelling labels.now) (W.may_close labels.now limit)) (W.good labels.now) (W.value_at labels.now) (item + 1)) }
    ensures empty { OnOk result (nodes.new.stock.made ≡ []) }
    ensures few { OnOk result (length nodes.new.stock.kept < 4294967295) }
    ensures values { OnOk result (nodes.new.values.items ≡ values_of (W.value_at labels.now) nodes.new.stock.kept) }
    ensures least { OnOk result (AllAtLeast (W.value_at labels.now) nodes.new.least nodes.new.stock.kept) }
    ensures levels { OnOk result (AreLevels (W.sound labels.now) (W.last labels.now) (W.value_at labels.now) 0 nodes.new.stock.kept nodes.new.levels.items) }
{
    make_item(
        labels,
        &mut nodes.stock,
        nodes.values.as_slice(),
        nodes.levels.as_slice(),
        nodes.least,
        item,
        limit,
    )?;
    keep_level(labels, item, nodes)
}

/// Makes the nodes of all lists that are kept, in place of those that were there.
pub fn fill<W: Labels>(labels: &W, limit: i64, nodes: &mut Nodes<W::Label>) -> Result<(), Memory>
    ensures nodes { OnOk result (nodes.new.stock.kept ≡ nodes_below (limited (W.labelling labels.now) (W.may_close labels.now limit)) (W.good labels.now) (W.value_at labels.now) (W.count labels.now)) }
    ensures few { OnOk result (length nodes.new.stock.kept < 4294967295) }
{
    nodes.stock.clear();
    nodes.values.clear();
    nodes.levels.clear();
    nodes.least = i64::MAX;
    for item in 0..labels.items() {
        add_item(labels, item, limit, nodes)?;
    }
    Ok(())
}
