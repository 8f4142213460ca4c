ghost use Rattle.std.specs.Prelude.{◌≡◌, ◌<◌, Some, None};
ghost use Rattle.disk.specs.declared.Outcome.TheVariants.{Failed};
ghost use Rattle.disk_tests.specs.Faulty.{faulty, Sound, lawful-faulty};

use disk::{BLOCK, Disk, InFlight, Outcome, check_block, check_bytes};
use refusal::Refusal;

// A disk of zeros with one place, on which every write fails in the given layer.
#[derive(Drop)]
pub struct Faulty {
    blocks: u16,
    layer: u8,
    // The block in flight, and its image.
    flight: Option<(u16, [u8; BLOCK])>,
    // The layer counts from 1, and the block in flight is below the number of blocks, with a whole image.
    pub ghost sound: { Sound blocks layer flight },
}

impl Faulty {
    pub fn new(blocks: u16, layer: u8) -> Faulty
        requires { 0 < layer }
    {
        Faulty {
            blocks,
            layer,
            flight: None,
        }
    }
}

impl Disk for Faulty {
    ghost meaning = { λ x. faulty x.blocks x.flight };

    ghost lawful = { λ x. lawful-faulty x.blocks x.layer x.flight x.sound };

    ghost reads = { λ x _ y. y ≡ x };

    ghost starts = { λ x b image y. (y.flight ≡ Some (b, image)) × (y.blocks ≡ x.blocks) × (y.layer ≡ x.layer) };

    ghost ends = { λ x b o y. (o ≡ Failed x.layer b) × (y.flight ≡ None) × (y.blocks ≡ x.blocks) × (y.layer ≡ x.layer) };

    fn blocks(&self) -> u16 {
        self.blocks
    }

    fn still(&self) -> bool {
        self.flight.is_none()
    }

    fn flying(&self, b: u16) -> bool {
        matches!(self.flight, Some((a, _)) if a == b)
    }

    fn is_open(&self, b: u16) -> bool {
        b < self.blocks && self.flight.is_none()
    }

    fn read(&mut self, b: u16, into: &mut [u8]) -> Result<(), Refusal> {
        check_bytes(into)?;
        check_block(b, self.blocks)?;
        into.fill(0);
        Ok(())
    }

    fn start(&mut self, b: u16, image: &[u8]) -> Result<(), Refusal> {
        let bytes = <[u8; BLOCK]>::try_from(image).map_err(|_| Refusal::UnfitBytes)?;
        check_block(b, self.blocks)?;
        match self.flight {
            Some((a, _)) if a == b => Err(Refusal::BlockInFlight),
            Some(_) => Err(Refusal::BlockNotOpen),
            None => {
                self.flight = Some((b, bytes));
                Ok(())
            }
        }
    }

    fn finish(&mut self, b: u16) -> Result<Outcome, Refusal> {
        check_block(b, self.blocks)?;
        if !self.flying(b) {
            return Err(Refusal::BlockNotInFlight);
        }
        self.flight = None;
        Ok(Outcome::Failed {
            layer: self.layer,
            block: b,
        })
    }
}

impl InFlight for Faulty {
    fn image(&self, b: u16, into: &mut [u8]) -> Result<(), Refusal> {
        check_bytes(into)?;
        check_block(b, self.blocks)?;
        match &self.flight {
            Some(flight) if flight.0 == b => {
                into.copy_from_slice(&flight.1);
                Ok(())
            }
            _ => Err(Refusal::BlockNotInFlight),
        }
    }
}
