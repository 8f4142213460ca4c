#![tactic(auto)]

ghost use Rattle.page_disk.specs.Runs.{WearCounted, WornOut, CanWearOut};

mod paged;
mod pages;

pub use paged::Paged;

// In every run as many writes succeed as life is used up, and as many fail as pages are retired.
pub fn wear_counted()
    ensures { WearCounted }
{}

// One block in two pages of life 1: two writes succeed, the third fails, and then no start is accepted.
pub fn worn_out()
    ensures only { WornOut }
    ensures can { CanWearOut }
{}
