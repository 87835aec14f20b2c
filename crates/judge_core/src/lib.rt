// The deciding half of the judge: from lines kept as numbers to the dirty read, the order or the knot (01, The judge's rules).
#![tactic(auto)]

mod counted;
mod decide;
mod dirty;
mod edges;
mod grouping;
pub mod kept;
mod knots;
mod lines;
mod order;
mod sets;
mod sizes;
