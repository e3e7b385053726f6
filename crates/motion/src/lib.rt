// Ways: a stretch against an obstacle, and the checker of ways.
#![tactic(auto)]

pub mod checker;
pub mod direct;
pub mod driving_laws;
pub mod ends;
pub mod laws;
pub mod stretches;
#[cfg(test)]
mod tests;
pub mod ways;
pub mod worked;
