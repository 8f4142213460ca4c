#![tactic(auto)]

mod blocks;
mod fills;
mod marks;

pub use blocks::{get_block, move_block, put_block};
pub use fills::{Rule, fill};
pub use marks::{Test, count, find};
