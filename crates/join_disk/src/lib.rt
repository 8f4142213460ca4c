#![tactic(auto)]

mod join;

pub use join::Join;
