ghost use Rattle.std.specs.Prelude.{◌≡◌, ◌*◌, ◌<◌, ◌≤◌, [], length};
ghost use Rattle.disk.specs.Meaning.{Still};
ghost use Rattle.disk.specs.Rules.{CheckRule};
ghost use Rattle.rows.specs.Blocks.{Has, Whole, GetRule, put_block};
ghost use Rattle.page_disk.specs.declared.pages.Page.TheVariants.{Image};
ghost use Rattle.page_disk.specs.Pages.{fresh, put_page, BestBelow};
ghost use Rattle.page_disk.specs.Wear.{PageStart, PageFinish};
ghost use Rattle.page_disk.specs.Paged.{Fit, paged, Sound, Begins};
ghost use Rattle.page_disk.specs.Laws.{lawful-paged};

use crate::pages::{MOST_PAGES, Pages};
use disk::{BLOCK, Disk, InFlight, Outcome, check_block, check_bytes};
use refusal::Refusal;
use rows::{get_block, put_block};

// The most blocks that a page disk has.
const MOST_BLOCKS: u16 = 64;

// A disk over lent pages, each of which takes so many writes.
#[derive(Drop)]
pub struct Paged<'a> {
    bytes: &'a mut [u8],
    pages: Pages,
    // Each block is in one page, each in flight has one image, and the pages in use are within the bytes.
    pub ghost sound: { Sound bytes.now pages },
}

impl<'a> Paged<'a> {
    // Whether the bytes are so many pages as there are lives, 2 to 80, for so many blocks, 1 to 64 and fewer than the pages.
    // The three stay apart here and in `new`, which are public calls and keep their parameters.
    pub fn check(bytes: &[u8], blocks: u16, lives: &[u16]) -> Result<(), Refusal>
        ensures { CheckRule (Fit (length bytes.now) blocks (length lives.now)) result }
    {
        let count = lives.len();
        if count < 2 || count > MOST_PAGES || bytes.len() != BLOCK * count {
            return Err(Refusal::UnfitBytes);
        }
        if blocks == 0 || blocks > MOST_BLOCKS || blocks as usize >= count {
            return Err(Refusal::UnfitBytes);
        }
        Ok(())
    }

    // A disk over so many blocks and pages with these lives.
    fn over(bytes: &'a mut [u8], blocks: u16, lives: &[u16]) -> Paged<'a>
        requires few { (blocks ≤ 64) × (length lives.now ≤ 80) × (blocks ≤ length lives.now) }
        requires long { 256 * length lives.now ≤ length bytes.old }
        ensures bytes { result.bytes.now ≡ bytes.old }
        ensures pages { result.pages ≡ fresh blocks lives.now }
        ensures begins { Begins result.bytes.now blocks lives.now result.pages }
        ensures still { Still (paged result.bytes.now result.pages) }
    {
        Paged {
            bytes,
            pages: Pages::fresh(blocks, lives),
        }
    }

    // A disk with nothing in flight; it has no blocks and no pages where the check refuses.
    pub fn new(bytes: &'a mut [u8], blocks: u16, lives: &[u16]) -> Paged<'a>
        ensures bytes { result.bytes.now ≡ bytes.old }
        ensures fit { Fit (length bytes.old) blocks (length lives.now) → result.pages ≡ fresh blocks lives.now }
        ensures begins { Fit (length bytes.old) blocks (length lives.now) → Begins result.bytes.now blocks lives.now result.pages }
        ensures unfit { (Fit (length bytes.old) blocks (length lives.now) → ⊥) → result.pages ≡ fresh 0 [] }
        ensures still { Still (paged result.bytes.now result.pages) }
    {
        if Paged::check(bytes, blocks, lives).is_err() {
            return Paged::over(bytes, 0, &[]);
        }
        Paged::over(bytes, blocks, lives)
    }
}

impl Paged<'_> {
    // Whether the disk is spent: at most as many pages as it has blocks are not retired.
    pub fn is_spent(&self) -> bool
        ensures { result ≡ (paged self.now.bytes.now self.now.pages).spent }
    {
        self.pages.is_spent()
    }

    // The spare page with most life left, the lower number among equals.
    // A method: a table that `start` lends out of its `&mut self` leaves the proof of a refused call open.
    fn best(&self) -> Option<usize>
        ensures { BestBelow self.now.pages.pages self.now.pages.lives (length self.now.pages.pages) result }
    {
        self.pages.best()
    }

    // Copies out page j.
    // A method, and not a call in `read`: bytes that `read` lends out of its `&mut self` leave its proof open.
    fn copy_out(&self, j: usize, into: &mut [u8]) -> Result<(), Refusal>
        ensures { GetRule self.now.bytes.now j into.old into.new result }
    {
        get_block(self.bytes, j, into)
    }
}

// Puts the image of block b into page j.
// Over the bytes and the table and not the disk: between the two writes the disk's own fact does not hold.
// That the bytes have the page ties bytes and index, which no one type holds.
// A slice and no array of 256: `start` would turn its slice into one, and the error of that into its refusal.
fn take(bytes: &mut [u8], pages: &mut Pages, j: usize, b: u16, image: &[u8])
    requires within { Has j bytes.old }
    requires whole { Whole image.now }
    requires page { j < 80 }
    ensures bytes { bytes.new ≡ put_block j image.now bytes.old }
    ensures pages { pages.new ≡ put_page j (Image b) pages.old }
{
    put_block(bytes, j, image).unwrap();
    pages.take(j, b);
}

impl Disk for Paged<'_> {
    ghost meaning = { λ x. paged x.bytes.now x.pages };

    ghost lawful = { λ x. lawful-paged x.bytes.now x.pages x.sound };

    ghost reads = { λ x _ y. y ≡ x };

    ghost starts = { λ x b image y. PageStart x.bytes.now x.pages b image y.bytes.now y.pages };

    ghost ends = { λ x b o y. PageFinish x.bytes.now x.pages b o y.bytes.now y.pages };

    fn blocks(&self) -> u16 {
        self.pages.blocks()
    }

    fn still(&self) -> bool {
        self.pages.is_idle()
    }

    fn flying(&self, b: u16) -> bool {
        self.pages.image_of(b).is_some()
    }

    fn is_open(&self, b: u16) -> bool {
        b < self.blocks() && self.pages.image_of(b).is_none() && self.pages.has_spare()
    }

    #[tactic(auto, using(crate::specs::Laws::found_inside))]
    fn read(&mut self, b: u16, into: &mut [u8]) -> Result<(), Refusal> {
        check_bytes(into)?;
        let j = self.pages.page_of(b).ok_or(Refusal::NoSuchBlock)?;
        self.copy_out(j, into)
    }

    fn start(&mut self, b: u16, image: &[u8]) -> Result<(), Refusal> {
        check_bytes(image)?;
        check_block(b, self.blocks())?;
        if self.flying(b) {
            return Err(Refusal::BlockInFlight);
        }
        let j = self.best().ok_or(Refusal::BlockNotOpen)?;
        take(self.bytes, &mut self.pages, j, b, image);
        Ok(())
    }

    fn finish(&mut self, b: u16) -> Result<Outcome, Refusal> {
        let old = self.pages.page_of(b).ok_or(Refusal::NoSuchBlock)?;
        let j = self.pages.image_of(b).ok_or(Refusal::BlockNotInFlight)?;
        Ok(self.pages.end(j, old, b))
    }
}

impl InFlight for Paged<'_> {
    #[tactic(auto, using(crate::specs::Laws::found_inside))]
    fn image(&self, b: u16, into: &mut [u8]) -> Result<(), Refusal> {
        check_bytes(into)?;
        check_block(b, self.blocks())?;
        let j = self.pages.image_of(b).ok_or(Refusal::BlockNotInFlight)?;
        self.copy_out(j, into)
    }
}
