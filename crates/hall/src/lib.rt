// Halls: shapes, their reader and writer, and what is refused.
#![tactic(auto)]

mod audit;
mod bends;
pub mod halls;
pub mod laws;
mod numbers;
pub mod reader;
pub mod refusals;
pub mod rounds;
pub mod routes;
pub mod shapes;
pub mod sides;
mod views;
mod writer;
