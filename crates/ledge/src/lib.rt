// Ledges: what can hold a load up in a hall, and how it gets from one to another.
#![tactic(auto)]

pub mod contacts;
pub mod descents;
pub mod floors;
pub mod graph;
pub mod ledges;
pub mod lights;
pub mod parts;
pub mod runs;
pub mod shadows;
pub mod spots;
pub mod surfaces;
mod uprights;
