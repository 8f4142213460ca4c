#![tactic(auto)]

mod places;
mod plain;

pub use plain::Plain;
