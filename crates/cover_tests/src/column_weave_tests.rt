//! Links of webs, and lists that are woven over them, worked by hand.

ghost use Rattle.std.specs.Prelude.{◌≤ℤ◌, pos};
ghost use Rattle.cover_tests.specs.Line.{line, line-listed};

use crate::made_columns::{column, prices};
use crate::three_items::Three;
use column_weave::{Link, Web, weave};
use cover_core::{Column, Columns};
use plan_core::{Memory, Price, Seq};
use std::alloc::Global;
use std::test::Fail;

/// Six items in one class: each alone is worth 1, two are worth one more than what lies between their numbers.
struct Line;

impl Columns for Line {
    ghost problem = { λ _. line };

    fn items(&self) -> u32 {
        6
    }

    fn classes(&self) -> u32 {
        1
    }

    fn cap(&self, _class: u32) -> u32 {
        1
    }

    fn worth(&self, _class: u32, list: &[u32]) -> Option<u64> {
        match list {
            [x] if *x < 6 => Some(1),
            [x, y] if *x < *y && *y < 6 => Some(1 + (*y - *x) as u64),
            _ => None,
        }
    }

    ghost listed = { λ _. line-listed };
}

/// The links of a class into an item, none past the end.
fn links_into(web: &Web, class: usize, item: usize) -> &[Link] {
    match web.classes.as_slice().get(class) {
        None => [].as_slice(),
        Some(links) => match links.into.as_slice().get(item) {
            None => [].as_slice(),
            Some(list) => list.as_slice(),
        },
    }
}

/// A link.
fn link(from: u32, rise: i64) -> Link {
    Link { from, rise }
}

/// Whether each later item is among the three nearest, and links have the rises of their classes.
fn new_links_are_right(alloc: Global) -> Result<bool, Memory> {
    let web = Web::new(alloc, &Three)?;
    Ok(
        links_into(&web, 0, 0) == [].as_slice()
            && links_into(&web, 0, 1) == [link(0, 2000)].as_slice()
            && links_into(&web, 0, 2) == [link(0, 2000), link(1, 1000)].as_slice()
            && links_into(&web, 1, 1) == [link(0, 1000)].as_slice()
            && links_into(&web, 1, 2) == [link(0, 1000), link(1, 0)].as_slice(),
    )
}

#[test]
fn links_of_a_new_web(rt: HostRuntime) -> Result<(), Fail> {
    assert!(rt; new_links_are_right(rt.alloc())?);
    Ok(())
}

/// Whether a column's neighbours are joined once, behind the links that were there: 0 and 4, and then 4 and 5, which were joined from the
/// start.
fn neighbours_are_joined(alloc: Global) -> Result<bool, Memory> {
    let mut web = Web::new(alloc, &Line)?;
    let old = [link(1, 3000), link(2, 2000), link(3, 1000)];
    let was = links_into(&web, 0, 4) == old.as_slice();
    let columns = vec![in alloc;
        column(alloc, 0, 7, [0, 4, 5].as_slice())?,
        column(alloc, 0, 7, [0, 4, 5].as_slice())?,
    ]?;
    web.link_all(alloc, &Line, columns.as_slice())?;
    let fourth = [link(1, 3000), link(2, 2000), link(3, 1000), link(0, 4000)];
    let fifth = [link(2, 3000), link(3, 2000), link(4, 1000)];
    Ok(
        was && links_into(&web, 0, 4) == fourth.as_slice()
            && links_into(&web, 0, 5) == fifth.as_slice(),
    )
}

#[test]
fn links_of_columns(rt: HostRuntime) -> Result<(), Fail> {
    assert!(rt; neighbours_are_joined(rt.alloc())?);
    Ok(())
}

/// What is woven of class 0 at prices 1,500, 100 and 4,000.
fn woven_columns(alloc: Global, fixed: bool, free: u32, asked: i64) -> Result<Seq<Column>, Memory>
    requires low { pos 0 ≤ℤ asked }
    requires high { asked ≤ℤ pos 1000 }
{
    let web = Web::new(alloc, &Three)?;
    let list = [Price(1500), Price(100), Price(4000)];
    let prices = prices(alloc, list.as_slice())?;
    let fixed = [fixed, false, false];
    let free = [free, 0];
    let asked = [asked, 0];
    weave(
        alloc,
        &Three,
        &web,
        &prices,
        fixed.as_slice(),
        free.as_slice(),
        asked.as_slice(),
    )
}

/// Whether the one column over a link from item 0 is the list of 0 and 2, of the value -500.
fn one_is_woven(alloc: Global) -> Result<bool, Memory> {
    let found = woven_columns(alloc, false, 1, 499)?;
    Ok(match found.as_slice() {
        [column] => {
            column.class == 0 && column.worth == 5 && column.items.as_slice() == [0, 2].as_slice()
        }
        _ => false,
    })
}

/// The class has no place, or asks as much, or item 0 is fixed, so that only item 1 leads to 2 and the list of both is too dear: nothing is
/// woven.
#[test]
fn weaves(rt: HostRuntime) -> Result<(), Fail> {
    assert!(rt; one_is_woven(rt.alloc())?);
    for (fixed, free, asked) in [(false, 0, 0), (false, 1, 500), (true, 1, 0)] {
        let none = woven_columns(rt.alloc(), fixed, free, asked)?;
        assert_eq!(rt; none.len(), 0);
    }
    Ok(())
}
