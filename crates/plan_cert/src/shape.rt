//! How many items the passes of a certificate have, and the numbers of their classes.

ghost use Rattle.std.specs.Prelude.{◌≡◌, ◌≤◌, IfOk, length, map};
ghost use Rattle.plan_cert.specs.Shapes as spec;
ghost use Rattle.plan_cert.specs.Shapes.{HaveFew};

use crate::cert::Pass;
use day_model::Day;
use plan_core::{Memory, Seq};
use plan_params::{Group, Pool};
use std::alloc::{AllocError, Global};

/// The numbers by which the tables name classes.
#[derive(Drop)]
pub struct ClassNumbers {
    /// The pools of vehicles (HOF_NR), in their order.
    pub pools: Seq<u32>,
    /// The groups of drivers (GRUPPE_NR), in their order.
    pub groups: Seq<u32>,
}

/// What the passes have: the first two are over trips and pools, the others over pieces and groups of drivers.
#[derive(Drop)]
pub struct Shape {
    /// How many trips there are.
    pub trips: u32,
    /// How many pieces there are.
    pub pieces: u32,
    /// The numbers of the classes.
    pub classes: ClassNumbers,
}

impl ClassNumbers {
    /// The numbers of the classes of a pass.
    pub(crate) fn numbers(&self, pass: Pass) -> &[u32]
        ensures { result.now ≡ spec.numbers_in self.now pass }
    {
        match pass {
            Pass::BlockNumber => self.pools.as_slice(),
            Pass::BlockCost => self.pools.as_slice(),
            Pass::DutyNumber => self.groups.as_slice(),
            Pass::DutyCost => self.groups.as_slice(),
        }
    }
}

impl Shape {
    /// How many items a pass has.
    pub(crate) fn items(&self, pass: Pass) -> u32
        ensures { result ≡ spec.items_of self.now pass }
    {
        match pass {
            Pass::BlockNumber => self.trips,
            Pass::BlockCost => self.trips,
            Pass::DutyNumber => self.pieces,
            Pass::DutyCost => self.pieces,
        }
    }
}

/// The numbers of some pools.
fn numbers_of_pools(alloc: Global, pools: &[Pool]) -> Result<Vec<u32>, AllocError>
    ensures { IfOk result (λ numbers. numbers.items ≡ map (λ pool. pool.number) pools.now) }
{
    pools.iter().map(|pool| pool.number).collect(alloc)
}

/// The numbers of some groups of drivers.
fn numbers_of_groups(alloc: Global, groups: &[Group]) -> Result<Vec<u32>, AllocError>
    ensures { IfOk result (λ numbers. numbers.items ≡ map (λ group. group.number) groups.now) }
{
    groups.iter().map(|group| group.number).collect(alloc)
}

/// The numbers of the pools of a day.
fn pool_numbers(alloc: Global, day: &Day) -> Result<Seq<u32>, Memory>
    ensures numbers { IfOk result (λ numbers. numbers ≡ spec.pool_numbers_of day.now) }
    ensures few { IfOk result (λ numbers. length numbers ≤ 32) }
{
    let numbers = numbers_of_pools(alloc, day.params().pools())?;
    Ok(Seq::from_vec(numbers))
}

/// The numbers of the groups of drivers of a day.
fn group_numbers(alloc: Global, day: &Day) -> Result<Seq<u32>, Memory>
    ensures numbers { IfOk result (λ numbers. numbers ≡ spec.group_numbers_of day.now) }
    ensures few { IfOk result (λ numbers. length numbers ≤ 32) }
{
    let numbers = numbers_of_groups(alloc, day.params().groups())?;
    Ok(Seq::from_vec(numbers))
}

/// The numbers of the classes of a day.
pub(crate) fn class_numbers(alloc: Global, day: &Day) -> Result<ClassNumbers, Memory>
    ensures numbers { IfOk result (λ classes. classes ≡ spec.class_numbers_of day.now) }
    ensures few { IfOk result HaveFew }
{
    let pools = pool_numbers(alloc, day)?;
    let groups = group_numbers(alloc, day)?;
    Ok(ClassNumbers { pools, groups })
}

/// What the passes of a day have, over so many pieces.
pub(crate) fn shape_of(alloc: Global, day: &Day, pieces: u32) -> Result<Shape, Memory>
    ensures shape { IfOk result (λ shape. shape ≡ spec.shape_of day.now pieces) }
    ensures few { IfOk result (λ shape. HaveFew shape.classes) }
{
    let classes = class_numbers(alloc, day)?;
    Ok(Shape {
        trips: day.trips().len() as u32,
        pieces,
        classes,
    })
}
