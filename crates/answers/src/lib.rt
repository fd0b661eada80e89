// Answers by text: what is printed of them, and the calls that hand nothing back.
#![tactic(auto)]

pub mod call;
pub mod groups;
pub mod output;
pub mod say;
mod selects;
mod shows;
mod vectors;
