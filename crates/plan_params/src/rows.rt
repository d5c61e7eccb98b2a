//! The rows of the tables of this project.

use plan_core::{Point, Seq};

pub mod admission;
pub mod group;
pub mod pool;
pub mod relief;
pub mod settings;
pub mod way;

use admission::Admission;
use group::Group;
use pool::Pool;
use settings::Settings;
use way::Way;

/// What the tables of this project say.
#[derive(Drop)]
pub struct ParamRows {
    /// X_PLAN.
    pub settings: Settings,
    /// X_HOF, in the order of HOF_NR.
    pub pools: Seq<Pool>,
    /// X_FAHRER, in the order of GRUPPE_NR.
    pub groups: Seq<Group>,
    /// X_LINIE_FZG.
    pub admissions: Seq<Admission>,
    /// X_ABLOESE.
    pub reliefs: Seq<Point>,
    /// X_WEG.
    pub ways: Seq<Way>,
}
