ghost use Rattle.std.specs.Prelude.{◌≡◌, ◌+◌, ◌^◌, ◌<◌, ◌==◌, nat_lt};
ghost use Rattle.plain_disk.specs.declared.places.Slot.TheVariants.{Free, Holding};
ghost use Rattle.plain_disk.specs.Slots.{same_slot, busy, place, flights, fresh_slot};
ghost use Rattle.plain_disk.specs.Places.{fresh};

use std::array;

// The most places that a plain disk has.
pub const MOST_PLACES: usize = 8;

// A place for an image in flight.
#[derive(Clone, Copy, PartialEq, Eq)]
pub enum Slot {
    Free,
    Holding(u16),
    Absent,
}

impl Slot {
    // Whether the slot holds an image.
    fn is_busy(self) -> bool
        ensures { result ≡ busy self }
    {
        matches!(self, Slot::Holding(_))
    }
}

// The slot of place i where all places are free.
fn fresh_slot(i: usize, count: u8) -> Slot
    ensures { result ≡ fresh_slot count i }
{
    if i < count as usize {
        Slot::Free
    } else {
        Slot::Absent
    }
}

// The blocks of a plain disk, and its places: as many as the count, the others absent.
// An array with a count, and no shorter list: the definitions of a plain disk have a slot for a place that is absent, so a list is no plainer.
#[derive(Drop)]
pub struct Places {
    pub blocks: u16,
    pub count: u8,
    pub slots: [Slot; MOST_PLACES],
}

impl Places {
    // All places free.
    pub fn fresh(blocks: u16, count: u8) -> Self
        ensures { result ≡ fresh blocks count }
    {
        Places {
            blocks,
            count,
            slots: array::from_fn(|i| fresh_slot(i, count)),
        }
    }

    // The lowest place with this slot.
    #[inline]
    fn find(&self, wanted: Slot) -> Option<usize>
        ensures { result ≡ place wanted self.now.slots }
    {
        self.slots.iter().position(|s| *s == wanted)
    }

    // The place that holds the image of block b.
    pub fn place_of(&self, b: u16) -> Option<usize>
        ensures { result ≡ place (Holding b) self.now.slots }
    {
        self.find(Slot::Holding(b))
    }

    // The lowest free place.
    pub fn free_place(&self) -> Option<usize>
        ensures { result ≡ place Free self.now.slots }
    {
        self.find(Slot::Free)
    }

    // How many places hold an image.
    fn count_busy(&self) -> usize
        ensures { result ≡ flights self.now.slots }
    {
        self.slots.iter().filter(|s| s.is_busy()).count()
    }

    // Whether nothing is in flight.
    pub fn is_idle(&self) -> bool
        ensures { result ≡ flights self.now.slots == 0 }
    {
        self.count_busy() == 0
    }

    // Whether fewer images are in flight than there are places.
    pub fn has_room(&self) -> bool
        ensures { result ≡ nat_lt (flights self.now.slots) self.now.count }
    {
        self.count_busy() < self.count as usize
    }

    // Where place j lies among the blocks of the bytes.
    pub fn row_of(&self, j: usize) -> usize
        requires { self.now.blocks + j < 2 ^ 64 }
        ensures { result ≡ self.now.blocks + j }
    {
        self.blocks as usize + j
    }
}
