// Obstacles: where the load meets a thing is the inside of one shape.
#![tactic(auto)]

pub mod all;
pub mod convex;
pub mod freedom;
pub mod growing;
pub mod grows;
pub mod sites;
#[cfg(test)]
mod tests;
mod walks;
