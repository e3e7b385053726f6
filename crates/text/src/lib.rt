// What the programs print.
#![tactic(auto)]

pub mod answers;
pub mod console;
pub mod fractions;
pub mod plans;
pub mod rendering;
pub mod replies;
#[cfg(test)]
mod tests;
