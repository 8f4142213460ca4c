ghost use Rattle.std.specs.Prelude.{map, ◌≡◌, ◌+◌, ◌<◌, length, is_some, count_by, nat_le};
ghost use Rattle.page_disk.specs.declared.pages.Page.TheVariants.{Spare, Medium, Image};
ghost use Rattle.page_disk.specs.Pages.{live, carries, idle, place, fresh_page, fresh, put_page, BestBelow};
ghost use Rattle.page_disk.specs.Wear.{EndsIn};

use disk::Outcome;
use std::array;
use std::marker::Model;

// The most pages that a page disk has.
pub const MOST_PAGES: usize = 80;

// What a page is for.
#[derive(Clone, Copy, PartialEq, Eq)]
pub enum Page {
    // Not to be used: worn out, or beyond the last page.
    Retired,
    Spare,
    // Has the medium's block.
    Medium(u16),
    // Has the image of a block in flight.
    Image(u16),
}

impl Page {
    // Page i of so many pages for so many blocks, as it begins: block b is in page b, the others are spare.
    fn fresh(blocks: u16, count: usize, i: usize) -> Self
        ensures { result ≡ fresh_page blocks count i }
    {
        if i < blocks as usize {
            Page::Medium(i as u16)
        } else if i < count {
            Page::Spare
        } else {
            Page::Retired
        }
    }

    // Whether the page is not retired.
    fn is_live(self) -> bool
        ensures { result ≡ live self }
    {
        !matches!(self, Page::Retired)
    }

    // Whether the page has an image in flight.
    fn carries(self) -> bool
        ensures { result ≡ carries self }
    {
        matches!(self, Page::Image(_))
    }
}

// An entry of the table: what a page is for, and what life it has left.
#[derive(Clone, Copy)]
struct Entry {
    page: Page,
    life: u16,
}

// The lowest entry whose page is for this.
fn place_of(entries: &[Entry], wanted: Page) -> Option<usize>
    ensures { result ≡ place wanted (map (λ e. e.page) entries.now) }
{
    entries.iter().map(|e| e.page).position(|p| p == wanted)
}

// Whether no entry's page has an image in flight.
fn are_idle(entries: &[Entry]) -> bool
    ensures { result ≡ idle (map (λ e. e.page) entries.now) }
{
    entries.iter().map(|e| e.page).all(|p| !p.carries())
}

// The blocks of a page disk, what its pages are for, and what life they have left.
#[derive(Drop)]
pub struct Pages {
    blocks: u16,
    entries: [Entry; MOST_PAGES],
}

// A contract sees what the pages are for and their lives, each as a list.
impl Model for Pages {
    ghost use Rattle.std.specs.Prelude.{◌≡◌, map, length};
    ghost use Rattle.page_disk.specs.Table.{Table};

    ghost Value = { Table };

    ghost view = { λ t. record { blocks = t.blocks; pages = map (λ e. e.page) t.entries; lives = map (λ e. e.life) t.entries } };

    ghost invariant = { λ t. length t.entries ≡ 80 };
}

impl Pages {
    // Pages with these lives: the first ones have the blocks, the others are spare.
    pub fn fresh(blocks: u16, lives: &[u16]) -> Self
        ensures { result ≡ fresh blocks lives.now }
    {
        Pages {
            blocks,
            entries: array::from_fn(|i| Entry {
                page: Page::fresh(blocks, lives.len(), i),
                life: lives.get(i).copied().unwrap_or(0),
            }),
        }
    }

    // The number of blocks.
    pub fn blocks(&self) -> u16
        ensures { result ≡ self.now.blocks }
    {
        self.blocks
    }

    // The page that has the medium's block b.
    pub fn page_of(&self, b: u16) -> Option<usize>
        ensures { result ≡ place (Medium b) self.now.pages }
    {
        place_of(&self.entries, Page::Medium(b))
    }

    // The page that has the image of block b in flight.
    pub fn image_of(&self, b: u16) -> Option<usize>
        ensures { result ≡ place (Image b) self.now.pages }
    {
        place_of(&self.entries, Page::Image(b))
    }

    // Whether a spare page exists.
    pub fn has_spare(&self) -> bool
        ensures { result ≡ is_some (place Spare self.now.pages) }
    {
        place_of(&self.entries, Page::Spare).is_some()
    }

    // Whether nothing is in flight.
    pub fn is_idle(&self) -> bool
        ensures { result ≡ idle self.now.pages }
    {
        are_idle(&self.entries)
    }

    // Whether at most so many pages as there are blocks are not retired.
    pub fn is_spent(&self) -> bool
        ensures { result ≡ nat_le (count_by live self.now.pages) self.now.blocks }
    {
        self.entries.iter().filter(|e| e.page.is_live()).count() <= self.blocks as usize
    }

    // The spare page with most life left, the lower number among equals.
    // A loop: as a chain, by `filter` and `min_by_key` or by `fold`, the check leaves its clause open.
    #[tactic(auto, using(crate::proofs::Entries::entry_steps))]
    pub fn best(&self) -> Option<usize>
        ensures { BestBelow self.now.pages self.now.lives (length self.now.pages) result }
    {
        let mut best: Option<usize> = None;
        for (i, e) in self.entries.iter().enumerate() {
            if e.page == Page::Spare && best.is_none_or(|j| e.life > self.entries[j].life) {
                best = Some(i);
            }
        }
        best
    }

    // Page j takes the image of block b.
    // That a page is there is said here, of `end`, and of the disk's `take`: an index with its bound would be taken apart at each look-up.
    #[tactic(auto, using(crate::proofs::Entries::entry_steps))]
    pub fn take(&mut self, j: usize, b: u16)
        requires { j < 80 }
        ensures { self.new ≡ put_page j (Image b) self.old }
    {
        self.entries[j].page = Page::Image(b);
    }

    // Ends the write of block b from its page `old` to page j.
    #[tactic(auto, using(crate::proofs::Entries::entry_steps))]
    pub fn end(&mut self, j: usize, old: usize, b: u16) -> Outcome
        requires { (j < 80) × (old < 80) }
        ensures { EndsIn j old self.old b result self.new }
    {
        if self.entries[j].life == 0 {
            self.entries[j].page = Page::Retired;
            return Outcome::Failed { layer: 1, block: b };
        }
        self.entries[old].page = Page::Spare;
        self.entries[j].page = Page::Medium(b);
        self.entries[j].life -= 1;
        Outcome::Written
    }
}
