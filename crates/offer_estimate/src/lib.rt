//! What the dual bound of prices would be if they were scaled down, guessed from the least reduced costs that a pricing step gave.
//!
//! Where prices are dual feasible but for a little, each class has a least value a little below 0, and the caps times these values take
//! much off the bound. Prices that are scaled down by a part of a whole have a greater bound: a list of the least value then has about the
//! value 0. Each class proposes a scale, and the one of the greatest guess is taken. A guess is advice: the scaled prices become a bound
//! only when they are priced and offered themselves. Scaling a vector into the feasible region of the dual is known from column generation
//! (J. M. Valério de Carvalho and others; A. A. Farley, A note on bounding a class of linear programming problems, 1990).
//!
//! Prices, values, worths and guesses are in thousandths of a cost unit. Both calls are proved exactly (`specs/Estimates.antt`).
#![tactic(auto)]

mod guessing;
mod scales;

pub use guessing::{Estimate, best_guess};
pub use scales::{Scale, scaled};
