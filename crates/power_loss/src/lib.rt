#![tactic(auto)]

ghost use Rattle.std.specs.Prelude.{◌≡◌, ℕ, ◌<◌, ◌≤◌, true, map, length, Some, IfOk};
ghost use Rattle.std.specs.List.{range_with_len};
ghost use Rattle.disk.specs.Meaning.{flies, stands};
ghost use Rattle.power_loss.specs.Shown.{shown_as};
ghost use Rattle.power_loss.specs.States.{among, Listed};
ghost use Rattle.power_loss.specs.Numbered.{airborne, picked};
ghost use Rattle.power_loss.specs.declared.Unlisted.TheVariants.{Memory};

use disk::{BLOCK, Disk, InFlight};
use std::alloc::{AllocError, AllocFailed, Global};
use std::fmt;

// With more blocks in flight than this, their choices are too many to list.
const MOST: usize = 16;

// What the medium holds after a loss of supply, and which of the blocks in flight got written.
#[derive(Drop)]
pub struct State {
    pub written: Vec<u16>,
    pub blocks: Vec<[u8; BLOCK]>,
}

// Why the states are not listed.
#[derive(Clone, Copy, PartialEq, Eq, Debug)]
pub enum Unlisted {
    // No memory is left.
    Memory,
    // More than 16 blocks are in flight.
    TooManyInFlight,
}

impl fmt::Display for Unlisted {
    ghost output = { λ why. Some (shown_as why) };

    fn fmt<W: fmt::Write>(&self, f: &mut fmt::Formatter<W>) -> fmt::Result {
        f.write_str(match self {
            Unlisted::Memory => "no memory",
            Unlisted::TooManyInFlight => "too many blocks in flight",
        })
    }
}

// Written out, as the next one is: `?` needs the clause `from_gives`, which a derive leaves out.
impl From<AllocError> for Unlisted {
    ghost from_gives = { λ _ r. r ≡ Memory };

    fn from(_e: AllocError) -> Unlisted {
        Unlisted::Memory
    }
}

impl<T: Drop> From<AllocFailed<T>> for Unlisted {
    ghost from_gives = { λ _ r. r ≡ Memory };

    fn from(_e: AllocFailed<T>) -> Unlisted {
        Unlisted::Memory
    }
}

// The blocks in flight, in rising order.
// Heap and disk stay apart, here and below: `states` is a public call and keeps its parameters.
fn flying_blocks<D: InFlight>(heap: Global, disk: &D) -> Result<Vec<u16>, AllocError>
    ensures { IfOk result (λ v. v.items ≡ airborne (D.Disk.meaning disk.now)) }
{
    (0..disk.blocks()).filter(|b| disk.flying(*b)).collect(heap)
}

// The choice with this number: bit j says whether the flying block at place j gets written.
fn choice(heap: Global, flying: &[u16], number: usize) -> Result<Vec<u16>, AllocError>
    requires { length flying.now ≤ MOST }
    ensures { IfOk result (λ v. v.items ≡ picked number flying.now) }
{
    flying
        .iter()
        .enumerate()
        .filter(|(j, _)| (number >> *j) % 2 == 1)
        .map(|(_, b)| *b)
        .collect(heap)
}

// What stands at block b: its image if it got written, else the medium's block.
// That the meaning stays is said here and of the two calls below: it is about a disk before and after, which no type holds.
#[tactic(auto, using(crate::proofs::Members::among_any))]
fn standing<D: InFlight>(disk: &mut D, written: &[u16], b: u16) -> [u8; BLOCK]
    requires within { b < (D.Disk.meaning disk.old).blocks }
    requires flying { among written.now b ≡ true → flies (D.Disk.meaning disk.old) b ≡ true }
    ensures same { D.Disk.meaning disk.new ≡ D.Disk.meaning disk.old }
    ensures stands { result ≡ stands (D.Disk.meaning disk.old) (among written.now) b }
{
    let mut block = [0; BLOCK];
    if written.contains(&b) {
        disk.image(b, &mut block).unwrap();
    } else {
        disk.read(b, &mut block).unwrap();
    }
    block
}

// The state that a loss of supply leaves if just these of the blocks in flight get written.
// A loop: as a chain, whose closure changes the disk that it borrows, nothing is known of the disk after it, and `same` stays open.
fn state_with<D: InFlight>(
    heap: Global,
    disk: &mut D,
    written: Vec<u16>,
) -> Result<State, AllocError>
    requires { (b : ℕ) → among written.items b ≡ true → flies (D.Disk.meaning disk.old) b ≡ true }
    ensures same { D.Disk.meaning disk.new ≡ D.Disk.meaning disk.old }
    ensures written { IfOk result (λ s. s.written.items ≡ written.items) }
    ensures blocks { IfOk result (λ s. s.blocks.items ≡ map (stands (D.Disk.meaning disk.old) (among written.items)) (range_with_len 0 (D.Disk.meaning disk.old).blocks)) }
{
    let mut blocks = Vec::new(heap);
    for b in 0..disk.blocks() {
        blocks.push(standing(disk, &written, b))?;
    }
    Ok(State { written, blocks })
}

// Every state that a loss of supply can leave at this moment: each choice of the blocks in flight once.
// A loop, for the same reason.
pub fn states<D: InFlight>(heap: Global, disk: &mut D) -> Result<Vec<State>, Unlisted>
    ensures same { D.Disk.meaning disk.new ≡ D.Disk.meaning disk.old }
    ensures listed { Listed (D.Disk.meaning disk.old) result }
{
    let flying = flying_blocks(heap, disk)?;
    if flying.len() > MOST {
        return Err(Unlisted::TooManyInFlight);
    }
    let mut states = Vec::new(heap);
    for number in 0..1 << flying.len() {
        let written = choice(heap, flying.as_slice(), number)?;
        states.push(state_with(heap, disk, written)?)?;
    }
    Ok(states)
}
