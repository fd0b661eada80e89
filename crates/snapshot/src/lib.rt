// What an epoch shows, and what waits for a vacuum: live tables, held rowsets and held delete vectors, in columns of numbers.
#![tactic(auto)]

pub mod counted;
pub mod epoch;
pub mod held;
pub mod passing;
pub mod rowsets;
pub mod tables;
pub mod vectors;
