ghost use Rattle.std.specs.Prelude.{◌≡◌, ◌+◌, ◌*◌, ◌<◌, ◌≤◌, length};
ghost use Rattle.disk.specs.declared.Outcome.TheVariants.{Written};
ghost use Rattle.disk.specs.Meaning.{Still};
ghost use Rattle.disk.specs.Rules.{CheckRule};
ghost use Rattle.plain_disk.specs.declared.places.Slot.TheVariants.{Free, Holding};
ghost use Rattle.rows.specs.Blocks.{Has, Whole, GetRule, block, put_block};
ghost use Rattle.plain_disk.specs.Slots.{place};
ghost use Rattle.plain_disk.specs.Places.{fresh, put_slot};
ghost use Rattle.plain_disk.specs.Plain.{Fit, plain, Sound, PlainStart, PlainFinish};
ghost use Rattle.plain_disk.specs.Laws.{lawful-plain};

use crate::places::{MOST_PLACES, Places, Slot};
use disk::{BLOCK, Disk, InFlight, Outcome, check_block, check_bytes};
use refusal::Refusal;
use rows::{get_block, move_block, put_block};

// A disk over lent bytes: the blocks of its medium, then places for images in flight.
#[derive(Drop)]
pub struct Plain<'a> {
    bytes: &'a mut [u8],
    places: Places,
    // Each block in flight is in one place of those that are there, and the bytes fit.
    pub ghost sound: { Sound bytes.now places },
}

impl<'a> Plain<'a> {
    // Whether the bytes are so many blocks and so many places, 1 to 8.
    // The three stay apart here and in `new`, which are public calls and keep their parameters.
    pub fn check(bytes: &[u8], blocks: u16, places: u8) -> Result<(), Refusal>
        ensures { CheckRule (Fit (length bytes.now) blocks places) result }
    {
        if places == 0
            || places as usize > MOST_PLACES
            || bytes.len() != BLOCK * (blocks as usize + places as usize)
        {
            return Err(Refusal::UnfitBytes);
        }
        Ok(())
    }

    // A disk over so many blocks and places, all free.
    fn over(bytes: &'a mut [u8], blocks: u16, places: u8) -> Plain<'a>
        requires places { (1 ≤ places) × (places ≤ 8) }
        requires long { 0 < blocks → length bytes.old ≡ 256 * (blocks + places) }
        ensures bytes { result.bytes.now ≡ bytes.old }
        ensures places { result.places ≡ fresh blocks places }
        ensures still { Still (plain result.bytes.now result.places) }
    {
        Plain {
            bytes,
            places: Places::fresh(blocks, places),
        }
    }

    // A disk with nothing in flight; it has no blocks where the check refuses.
    pub fn new(bytes: &'a mut [u8], blocks: u16, places: u8) -> Plain<'a>
        ensures bytes { result.bytes.now ≡ bytes.old }
        ensures fit { Fit (length bytes.old) blocks places → result.places ≡ fresh blocks places }
        ensures unfit { (Fit (length bytes.old) blocks places → ⊥) → result.places ≡ fresh 0 1 }
        ensures still { Still (plain result.bytes.now result.places) }
    {
        if Plain::check(bytes, blocks, places).is_err() {
            return Plain::over(bytes, 0, 1);
        }
        Plain::over(bytes, blocks, places)
    }
}

impl Plain<'_> {
    // Copies out block i of the bytes.
    // A method, and not a call in `read`: bytes that `read` lends out of its `&mut self` leave its proof open.
    fn copy_out(&self, i: usize, into: &mut [u8]) -> Result<(), Refusal>
        ensures { GetRule self.now.bytes.now i into.old into.new result }
    {
        get_block(self.bytes, i, into)
    }

    // Copies out the image in place j.
    // That the bytes have the place is said here, of `take` and of `land`: it ties table, place and bytes, which no one type holds.
    fn show(&self, j: usize, into: &mut [u8]) -> Result<(), Refusal>
        requires { Has (self.now.places.blocks + j) self.now.bytes.now }
        ensures { GetRule self.now.bytes.now (self.now.places.blocks + j) into.old into.new result }
    {
        self.copy_out(self.places.row_of(j), into)
    }

    // The place that holds the image of block b.
    // A method, as the next one is: a table that `finish` or `start` lends out of its `&mut self` leaves the proof of a refused call open.
    fn place_of(&self, b: u16) -> Option<usize>
        ensures { result ≡ place (Holding b) self.now.places.slots }
    {
        self.places.place_of(b)
    }

    // The lowest free place.
    fn free_place(&self) -> Option<usize>
        ensures { result ≡ place Free self.now.places.slots }
    {
        self.places.free_place()
    }
}

// Puts the image of block b into place j.
// Over the bytes and the table and not the disk, as the next one is: between the two writes the disk's own fact does not hold.
// A slice and no array of 256: `start` would turn its slice into one, and the error of that into its refusal.
fn take(bytes: &mut [u8], places: &mut Places, j: usize, b: u16, image: &[u8])
    requires within { Has (places.old.blocks + j) bytes.old }
    requires whole { Whole image.now }
    requires place { j < 8 }
    ensures bytes { bytes.new ≡ put_block (places.old.blocks + j) image.now bytes.old }
    ensures places { places.new ≡ put_slot j (Holding b) places.old }
{
    put_block(bytes, places.row_of(j), image).unwrap();
    places.slots[j] = Slot::Holding(b);
}

// Copies the image in place j over block b of the medium, and frees the place.
fn land(bytes: &mut [u8], places: &mut Places, j: usize, b: u16)
    requires source { Has (places.old.blocks + j) bytes.old }
    requires target { Has b bytes.old }
    requires place { j < 8 }
    ensures bytes { bytes.new ≡ put_block b (block (places.old.blocks + j) bytes.old) bytes.old }
    ensures places { places.new ≡ put_slot j Free places.old }
{
    move_block(bytes, places.row_of(j), b as usize).unwrap();
    places.slots[j] = Slot::Free;
}

impl Disk for Plain<'_> {
    ghost meaning = { λ x. plain x.bytes.now x.places };

    ghost lawful = { λ x. lawful-plain x.bytes.now x.places x.sound };

    ghost reads = { λ x _ y. y ≡ x };

    ghost starts = { λ x b image y. PlainStart x.bytes.now x.places b image y.bytes.now y.places };

    ghost ends = { λ x b o y. (o ≡ Written) × PlainFinish x.bytes.now x.places b y.bytes.now y.places };

    fn blocks(&self) -> u16 {
        self.places.blocks
    }

    fn still(&self) -> bool {
        self.places.is_idle()
    }

    fn flying(&self, b: u16) -> bool {
        self.place_of(b).is_some()
    }

    fn is_open(&self, b: u16) -> bool {
        b < self.places.blocks && !self.flying(b) && self.places.has_room()
    }

    fn read(&mut self, b: u16, into: &mut [u8]) -> Result<(), Refusal> {
        check_bytes(into)?;
        check_block(b, self.places.blocks)?;
        self.copy_out(b as usize, into)
    }

    fn start(&mut self, b: u16, image: &[u8]) -> Result<(), Refusal> {
        check_bytes(image)?;
        check_block(b, self.places.blocks)?;
        if self.flying(b) {
            return Err(Refusal::BlockInFlight);
        }
        let j = self.free_place().ok_or(Refusal::BlockNotOpen)?;
        take(self.bytes, &mut self.places, j, b, image);
        Ok(())
    }

    fn finish(&mut self, b: u16) -> Result<Outcome, Refusal> {
        check_block(b, self.places.blocks)?;
        let j = self.place_of(b).ok_or(Refusal::BlockNotInFlight)?;
        land(self.bytes, &mut self.places, j, b);
        Ok(Outcome::Written)
    }
}

impl InFlight for Plain<'_> {
    fn image(&self, b: u16, into: &mut [u8]) -> Result<(), Refusal> {
        check_bytes(into)?;
        check_block(b, self.places.blocks)?;
        let j = self.place_of(b).ok_or(Refusal::BlockNotInFlight)?;
        self.show(j, into)
    }
}
