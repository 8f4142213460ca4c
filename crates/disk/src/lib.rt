#![tactic(auto)]

ghost use Rattle.std.specs.Prelude.{◌≡◌, ℕ, List, Decides, Some, length};
ghost use Rattle.disk.specs.Meaning.{Meaning, Lawful, Still, flies};
ghost use Rattle.disk.specs.Rules.{ReadRule, StartRule, FinishRule, ImageRule, CheckRule, BlockRule, Accepted, Refused};
ghost use Rattle.disk.specs.Shown.{shown_as};
ghost use Rattle.disk.specs.declared.Outcome.{Outcome};

use refusal::Refusal;
use std::fmt;

// The bytes of a block.
pub const BLOCK: usize = 256;

// How a write ended; a failure names the layer that failed and the block as numbered there.
// No Result: a failed write is an accepted call, which changes the disk, and an Err is a refused one, which changes nothing.
#[derive(Clone, Copy, PartialEq, Eq, Debug)]
pub enum Outcome {
    Written,
    Failed { layer: u8, block: u16 },
}

impl fmt::Display for Outcome {
    ghost output = { λ o. Some (shown_as o) };

    fn fmt<W: fmt::Write>(&self, f: &mut fmt::Formatter<W>) -> fmt::Result {
        match self {
            Outcome::Written => f.write_str("written"),
            Outcome::Failed { layer, block } => {
                write!(f, "failed in layer {layer} at block {block}")
            }
        }
    }
}

// Refuses bytes that are not one block.
pub fn check_bytes(bytes: &[u8]) -> Result<(), Refusal>
    ensures { CheckRule (length bytes.now ≡ 256) result }
{
    if bytes.len() == BLOCK {
        Ok(())
    } else {
        Err(Refusal::UnfitBytes)
    }
}

// Refuses a block that is not below the number of blocks.
pub fn check_block(b: u16, blocks: u16) -> Result<(), Refusal>
    ensures { BlockRule b blocks result }
{
    if b < blocks {
        Ok(())
    } else {
        Err(Refusal::NoSuchBlock)
    }
}

// A disk of blocks, as every layer above knows it.
pub trait Disk {
    // What the disk means.
    ghost meaning: { Self → Meaning };

    // What a disk's own read does beyond its meaning: the disk before, the block, the disk after.
    ghost reads: { Self → ℕ → Self → Type 0 };

    // What a disk's own start does beyond its meaning: the disk before, the block, the image, the disk after.
    ghost starts: { Self → ℕ → List ℕ → Self → Type 0 };

    // What a disk's own finish does beyond its meaning: the disk before, the block, how it ended, the disk after.
    ghost ends: { Self → ℕ → Outcome → Self → Type 0 };

    // The number of blocks.
    fn blocks(&self) -> u16
        ensures { result ≡ (meaning self.now).blocks };

    // Whether nothing is in flight.
    fn still(&self) -> bool
        ensures { Decides result (Still (meaning self.now)) };

    // Whether block b is in flight.
    fn flying(&self, b: u16) -> bool
        ensures { result ≡ flies (meaning self.now) b };

    // Whether block b may be started.
    fn is_open(&self, b: u16) -> bool
        ensures { result ≡ (meaning self.now).opens b };

    // Copies out the medium's block b.
    fn read(&mut self, b: u16, into: &mut [u8]) -> Result<(), Refusal>
        ensures rule { ReadRule (meaning self.old) b into.old into.new (meaning self.new) result }
        ensures same { Refused (self.new ≡ self.old) result }
        ensures reads { Accepted (λ _. reads self.old b self.new) result };

    // Puts an image of block b into flight.
    fn start(&mut self, b: u16, image: &[u8]) -> Result<(), Refusal>
        ensures rule { StartRule (meaning self.old) b image.now (meaning self.new) result }
        ensures same { Refused (self.new ≡ self.old) result }
        ensures starts { Accepted (λ _. starts self.old b image.now self.new) result };

    // Ends the write of block b in flight.
    fn finish(&mut self, b: u16) -> Result<Outcome, Refusal>
        ensures rule { FinishRule (meaning self.old) b (meaning self.new) result }
        ensures same { Refused (self.new ≡ self.old) result }
        ensures ends { Accepted (λ o. ends self.old b o self.new) result };

    // The laws that each disk owes.
    ghost lawful: { (x : Self) → Lawful (meaning x) };
}

// A disk that also shows its images in flight, for tools that tell what a loss of supply leaves.
pub trait InFlight: Disk {
    // Copies out the image of block b in flight.
    fn image(&self, b: u16, into: &mut [u8]) -> Result<(), Refusal>
        ensures { ImageRule (Self.Disk.meaning self.now) b into.old into.new result };
}
