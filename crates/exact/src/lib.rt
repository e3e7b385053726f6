// Corners, places and sides, and exact questions about them, in numbers of stated size.
#![tactic(auto)]

pub mod meets;
pub mod orders;
pub mod points;
pub mod sides;
pub mod stands;
#[cfg(test)]
mod tests;
pub mod wide;
