//! A label, and the node that it was made from.
#![tactic(auto)]

use plan_core::Seq;

/// A label of a list that ends with an item. `before` is 0 for a list of one item, and else one more than the place of
/// the node of the list without that item.
#[derive(Clone, Copy)]
pub struct Node<L> {
    /// The label.
    pub label: L,
    /// The last item of the list.
    pub item: u32,
    /// The rank of the node that this one extends, from 1, and 0 for none.
    pub before: u32,
}

/// The nodes of the lists that end with one item: those before a place that no earlier level has.
#[derive(Clone, Copy)]
pub struct Level {
    /// The item.
    pub item: u32,
    /// The place behind the level's nodes.
    pub end: u32,
    /// A value that none of the level's labels is below.
    pub least: i64,
}

/// The place of a node, and the value with which its list closes.
#[derive(Clone, Copy)]
pub struct Best {
    /// The place of the node.
    pub place: u32,
    /// The value.
    pub value: i64,
}

/// A list, and the value with which it closes.
#[derive(Drop)]
pub struct Found {
    /// The items of the list, which rise.
    pub list: Seq<u32>,
    /// The value with which it closes.
    pub value: i64,
}
