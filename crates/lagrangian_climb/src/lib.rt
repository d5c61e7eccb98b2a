//! The subgradient method for the Lagrangian dual of set partitioning over a pool of columns, with Polyak's step size and the memory of
//! the heavy ball.
//!
//! The *Lagrangian* of a pool at some prices is the sum of the prices and, of each class, of the least values below 0 of as many columns
//! as the class has places: what is left of the cost of the cheapest choice where each item is paid its price instead of being covered
//! once. It is at most a thousand times the cost of the cheapest plan from the pool. One less how often the chosen columns have an item is
//! a subgradient of it. A *climb* makes price steps: it goes along a direction that remembers the price steps before, by a size that the
//! distance to an aim gives, and keeps the prices at which the Lagrangian was greatest.
//!
//! Sources: B. T. Polyak, Minimization of unsmooth functionals (1969), for the step size, and Some methods of speeding up the convergence
//! of iteration methods (1964), for the heavy ball; M. Held, P. Wolfe and H. P. Crowder, Validation of subgradient optimization (1974),
//! for the falling pace; any textbook on combinatorial optimization has a chapter on Lagrangian relaxation.
//!
//! What is proved: `choose` exactly, as one definition without workers or sorting (`specs/Choices.antt`); each number of a price step
//! exactly (`specs/Numbers.antt`); of `climb` that it ends, that no number overflows, and the ranges of what it gives
//! (`specs/Climbs.antt`). That the vectors of a price step are made of those numbers item by item, and how good the prices are, is only
//! tested. All of it is advice on prices: no bound rests on it.
#![tactic(auto)]

mod choosing;
mod climbing;
mod covers;
mod numbers;
mod playing;
mod vectors;

pub use choosing::{Choice, choose};
pub use climbing::{Climbed, Peak, Rest, climb};
pub use playing::is_in_play;
pub use vectors::Span;
