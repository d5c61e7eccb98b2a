//! A certificate.

use cover_core::{BlockCover, Cover, Prices};
use plan_core::Seq;

/// A pass of the planner: what it plans, and by what plans are compared.
#[derive(Clone, Copy, Debug, PartialEq, Eq)]
pub enum Pass {
    /// Pass 1: the number of blocks.
    BlockNumber,
    /// Pass 2: the costs of blocks.
    BlockCost,
    /// Pass 3: the number of duties.
    DutyNumber,
    /// Pass 4: the costs of duties.
    DutyCost,
}

/// What one pass shows of its bound: kept prices and class prices, and the cover by which they are paid.
#[derive(Drop)]
pub struct CertPart {
    /// The kept price of each item: a trip in passes 1 and 2, a piece in passes 3 and 4.
    pub prices: Prices,
    /// The kept price of each class, by the classes' numbers from 0: a pool in passes 1 and 2, a group of drivers in passes 3 and 4.
    pub class_prices: Seq<i64>,
    /// The cover of duties, empty in passes 1 and 2.
    pub cover: Cover,
    /// The cover of blocks, empty in passes 3 and 4.
    pub blocks: BlockCover,
}

/// A certificate: four parts, one for each pass.
#[derive(Drop)]
pub struct Cert {
    /// The parts, in the order of the passes.
    pub parts: Seq<CertPart>,
}
