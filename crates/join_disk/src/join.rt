ghost use Rattle.std.specs.Prelude.{◌≡◌, Decides};
ghost use Rattle.disk.specs.Meaning.{Still};
ghost use Rattle.join_disk.specs.Join.{joined, Sides, Lies, OnSide, raise, Raised};
ghost use Rattle.join_disk.specs.Laws.{lawful-joined};

use disk::{Disk, InFlight, Outcome, check_block, check_bytes};
use refusal::Refusal;

// Where a block of a join lies, as numbered there.
enum Side {
    Left(u16),
    Right(u16),
}

// A side's outcome as the join answers it: a failure lies one layer further down.
fn raised(o: Outcome) -> Outcome
    ensures { result ≡ raise o }
{
    match o {
        Outcome::Written => Outcome::Written,
        Outcome::Failed { layer, block } => Outcome::Failed {
            layer: layer.saturating_add(1),
            block,
        },
    }
}

// Two disks as one: the left one's blocks come first.
#[derive(Drop)]
pub struct Join<L: Disk, R: Disk> {
    left: L,
    right: R,
}

impl<L: Disk, R: Disk> Join<L, R> {
    // Joins two disks; the join has no blocks where they have more than 65,535.
    pub fn new(left: L, right: R) -> Self
        ensures left { result.left ≡ left }
        ensures right { result.right ≡ right }
        ensures sides { Sides (L.Disk.meaning left) (R.Disk.meaning right) (joined (L.Disk.meaning result.left) (R.Disk.meaning result.right)) }
    {
        Join { left, right }
    }

    // Where block b lies; past the last block it is refused.
    fn side_of(&self, b: u16) -> Result<Side, Refusal>
        ensures { Lies (L.Disk.meaning self.now.left).blocks (R.Disk.meaning self.now.right).blocks b result }
    {
        check_block(b, self.blocks())?;
        let n = self.left.blocks();
        if b < n {
            Ok(Side::Left(b))
        } else {
            Ok(Side::Right(b - n))
        }
    }

    // Whether nothing is in flight on either side.
    fn sides_still(&self) -> bool
        ensures { Decides result (Still (L.Disk.meaning self.now.left) × Still (R.Disk.meaning self.now.right)) }
    {
        self.left.still() && self.right.still()
    }
}

// The join as a disk: each call goes to the side of its block and leaves the other side as it was.
impl<L: Disk, R: Disk> Disk for Join<L, R> {
    ghost meaning = { λ x. joined (L.Disk.meaning x.left) (R.Disk.meaning x.right) };

    ghost lawful = { λ x. lawful-joined (L.Disk.meaning x.left) (R.Disk.meaning x.right) (L.Disk.lawful x.left) (R.Disk.lawful x.right) };

    ghost reads = { λ x b y. OnSide (L.Disk.meaning x.left).blocks b L.Disk.reads R.Disk.reads x.left x.right y.left y.right };

    ghost starts = { λ x b image y. OnSide (L.Disk.meaning x.left).blocks b (λ l a. L.Disk.starts l a image) (λ r a. R.Disk.starts r a image) x.left x.right y.left y.right };

    ghost ends = { λ x b o y. OnSide (L.Disk.meaning x.left).blocks b (Raised L.Disk.ends o) (Raised R.Disk.ends o) x.left x.right y.left y.right };

    fn blocks(&self) -> u16 {
        let left = self.left.blocks();
        left.checked_add(self.right.blocks()).unwrap_or(0)
    }

    fn still(&self) -> bool {
        self.blocks() == 0 || self.sides_still()
    }

    fn flying(&self, b: u16) -> bool {
        match self.side_of(b) {
            Ok(Side::Left(a)) => self.left.flying(a),
            Ok(Side::Right(a)) => self.right.flying(a),
            Err(_) => false,
        }
    }

    fn is_open(&self, b: u16) -> bool {
        match self.side_of(b) {
            Ok(Side::Left(a)) => self.left.is_open(a),
            Ok(Side::Right(a)) => self.right.is_open(a),
            Err(_) => false,
        }
    }

    fn read(&mut self, b: u16, into: &mut [u8]) -> Result<(), Refusal> {
        check_bytes(into)?;
        match self.side_of(b)? {
            Side::Left(a) => self.left.read(a, into),
            Side::Right(a) => self.right.read(a, into),
        }
    }

    fn start(&mut self, b: u16, image: &[u8]) -> Result<(), Refusal> {
        check_bytes(image)?;
        match self.side_of(b)? {
            Side::Left(a) => self.left.start(a, image),
            Side::Right(a) => self.right.start(a, image),
        }
    }

    fn finish(&mut self, b: u16) -> Result<Outcome, Refusal> {
        match self.side_of(b)? {
            Side::Left(a) => Ok(raised(self.left.finish(a)?)),
            Side::Right(a) => Ok(raised(self.right.finish(a)?)),
        }
    }
}

// The images in flight are those of the sides.
impl<L: InFlight, R: InFlight> InFlight for Join<L, R> {
    fn image(&self, b: u16, into: &mut [u8]) -> Result<(), Refusal> {
        check_bytes(into)?;
        match self.side_of(b)? {
            Side::Left(a) => self.left.image(a, into),
            Side::Right(a) => self.right.image(a, into),
        }
    }
}
