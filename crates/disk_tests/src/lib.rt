// Examples of the disks and of what a loss of supply leaves, run.
#![tactic(auto)]

ghost use Rattle.std.specs.Prelude.{nat_le};

#[cfg(test)]
mod faulty;

#[cfg(test)]
mod tests {
    use crate::faulty::Faulty;
    use disk::{BLOCK, Disk, InFlight, Outcome};
    use join_disk::Join;
    use page_disk::Paged;
    use plain_disk::Plain;
    use power_loss::{Unlisted, states};
    use refusal::Refusal;
    use rows::{Rule, Test, count, fill, find, get_block, move_block, put_block};
    use std::fmt::Debug;
    use std::test::Fail;

    // A call of a disk; no closure, so that one table of calls is played over several disks.
    #[derive(Clone, Copy, Debug)]
    enum Step {
        // Start a block with an image of one byte, or with one that is a byte short.
        Start(u16, u8),
        StartShort(u16),
        Finish(u16),
        // Read a block, whole or into a byte too few.
        Read(u16),
        ReadShort(u16),
        // Copy out an image in flight.
        Image(u16),
        Blocks,
        Still,
        Flying(u16),
        IsOpen(u16),
    }

    // What a call answers, and the first byte of the bytes that it copies into.
    #[derive(Clone, Copy, PartialEq, Eq, Debug)]
    enum Answer {
        Number(u16),
        Truth(bool),
        Started(Result<(), Refusal>),
        Finished(Result<Outcome, Refusal>),
        Copied(Result<(), Refusal>, u8),
    }

    // Makes the call; the bytes to copy into begin as sevens.
    fn call<D: InFlight>(disk: &mut D, step: Step) -> Answer {
        let mut block = [7; BLOCK];
        match step {
            Step::Start(b, byte) => Answer::Started(disk.start(b, &[byte; BLOCK])),
            Step::StartShort(b) => Answer::Started(disk.start(b, &[1; 255])),
            Step::Finish(b) => Answer::Finished(disk.finish(b)),
            Step::Read(b) => Answer::Copied(disk.read(b, &mut block), block[0]),
            Step::ReadShort(b) => Answer::Copied(disk.read(b, &mut block[..255]), block[0]),
            Step::Image(b) => Answer::Copied(disk.image(b, &mut block), block[0]),
            Step::Blocks => Answer::Number(disk.blocks()),
            Step::Still => Answer::Truth(disk.still()),
            Step::Flying(b) => Answer::Truth(disk.flying(b)),
            Step::IsOpen(b) => Answer::Truth(disk.is_open(b)),
        }
    }

    // Fails the test where an answer is not the wanted one; by a Fail, so that no helper ends the process.
    fn check_eq<T: PartialEq + Debug + Drop>(got: T, wanted: T) -> Result<(), Fail> {
        if got != wanted {
            return Err(Fail::new(format_args!("{got:?} is not {wanted:?}")));
        }
        Ok(())
    }

    // Takes each step and compares what it answers.
    fn plays<D: InFlight>(disk: &mut D, table: &[(Step, Answer)]) -> Result<(), Fail> {
        for (step, wanted) in table {
            check_eq(call(disk, *step), *wanted)?;
        }
        Ok(())
    }

    // A row of two blocks and a part of a third.
    #[test]
    fn blocks_of_a_row(rt: HostRuntime) {
        let mut row = [1u8; 600];
        let mut block = [7u8; BLOCK];
        assert_eq!(rt; put_block(&mut row, 1, &[2; BLOCK]), Ok(()));
        assert_eq!(rt;
            put_block(&mut row, 2, &[3; BLOCK]),
            Err(Refusal::NoSuchBlock)
        );
        assert_eq!(rt; put_block(&mut row, 0, &[3; 255]), Err(Refusal::UnfitBytes));
        assert_eq!(rt; get_block(&row, 2, &mut block), Err(Refusal::NoSuchBlock));
        assert_eq!(rt; block[0], 7);
        assert_eq!(rt; get_block(&row, 1, &mut block), Ok(()));
        assert_eq!(rt; block[255], 2);
        assert_eq!(rt; move_block(&mut row, 1, 2), Err(Refusal::NoSuchBlock));
        assert_eq!(rt; move_block(&mut row, 1, 0), Ok(()));
        assert_eq!(rt; row[0], 2);
        assert_eq!(rt; row[599], 1);
    }

    // A mark passes that is at least so much.
    #[derive(Drop)]
    struct AtLeast(u8);

    impl Test<u8> for AtLeast {
        ghost passes = { λ least mark. nat_le least.0 mark };

        fn passes(&self, mark: &u8) -> bool {
            *mark >= self.0
        }
    }

    // Each place gets its number.
    #[derive(Drop)]
    struct Numbered;

    impl Rule<usize> for Numbered {
        ghost at = { λ _ i. i };

        fn at(&self, i: usize) -> usize {
            i
        }
    }

    #[test]
    fn marks_of_a_row(rt: HostRuntime) {
        let marks = [3u8, 7, 1, 7];
        assert_eq!(rt; find(&marks, &AtLeast(4)), Some(1));
        assert_eq!(rt; find(&marks, &AtLeast(8)), None);
        assert_eq!(rt; find(&marks[..0], &AtLeast(0)), None);
        assert_eq!(rt; count(&marks, &AtLeast(3)), 3);
        let mut places = [9usize; 3];
        fill(&mut places, &Numbered);
        assert_eq!(rt; places, [0, 1, 2]);
    }

    #[test]
    fn fitting_bytes(rt: HostRuntime) {
        let bytes = [0u8; 2561];
        let unfit = Err(Refusal::UnfitBytes);
        assert_eq!(rt; Plain::check(&bytes[0..768], 2, 1), Ok(()));
        assert_eq!(rt; Plain::check(&bytes[0..767], 2, 1), unfit);
        assert_eq!(rt; Plain::check(&bytes[0..769], 2, 1), unfit);
        assert_eq!(rt; Plain::check(&bytes[0..512], 2, 0), unfit);
        assert_eq!(rt; Plain::check(&bytes[0..2560], 2, 8), Ok(()));
        assert_eq!(rt; Plain::check(&bytes[0..2560], 1, 9), unfit);
        assert_eq!(rt; Plain::check(&bytes[0..256], 0, 1), Ok(()));
    }

    const ONE_PLACE: [(Step, Answer); 23] = [
        (Step::Blocks, Answer::Number(2)),
        (
            Step::StartShort(2),
            Answer::Started(Err(Refusal::UnfitBytes)),
        ),
        (
            Step::Start(2, 1),
            Answer::Started(Err(Refusal::NoSuchBlock)),
        ),
        (Step::Finish(2), Answer::Finished(Err(Refusal::NoSuchBlock))),
        (
            Step::Finish(0),
            Answer::Finished(Err(Refusal::BlockNotInFlight)),
        ),
        (
            Step::Image(0),
            Answer::Copied(Err(Refusal::BlockNotInFlight), 7),
        ),
        (Step::Image(2), Answer::Copied(Err(Refusal::NoSuchBlock), 7)),
        (Step::Start(0, 1), Answer::Started(Ok(()))),
        (
            Step::Start(0, 2),
            Answer::Started(Err(Refusal::BlockInFlight)),
        ),
        (
            Step::Start(1, 2),
            Answer::Started(Err(Refusal::BlockNotOpen)),
        ),
        (Step::Still, Answer::Truth(false)),
        (Step::Flying(0), Answer::Truth(true)),
        (Step::IsOpen(1), Answer::Truth(false)),
        (Step::Image(0), Answer::Copied(Ok(()), 1)),
        (Step::Read(0), Answer::Copied(Ok(()), 9)),
        (Step::Finish(0), Answer::Finished(Ok(Outcome::Written))),
        (Step::Still, Answer::Truth(true)),
        (Step::Flying(0), Answer::Truth(false)),
        (Step::IsOpen(1), Answer::Truth(true)),
        (Step::IsOpen(2), Answer::Truth(false)),
        (Step::Read(0), Answer::Copied(Ok(()), 1)),
        (Step::Read(2), Answer::Copied(Err(Refusal::NoSuchBlock), 7)),
        (
            Step::ReadShort(0),
            Answer::Copied(Err(Refusal::UnfitBytes), 7),
        ),
    ];

    #[test]
    fn two_blocks_one_place(rt: HostRuntime) -> Result<(), Fail> {
        let mut bytes = [9u8; 768];
        plays(&mut Plain::new(&mut bytes, 2, 1), &ONE_PLACE)?;
        assert_eq!(rt; bytes[255], 1);
        assert_eq!(rt; bytes[256], 9);
        Ok(())
    }

    const NO_BLOCKS: [(Step, Answer); 7] = [
        (Step::Blocks, Answer::Number(0)),
        (Step::Still, Answer::Truth(true)),
        (Step::Flying(0), Answer::Truth(false)),
        (Step::IsOpen(0), Answer::Truth(false)),
        (
            Step::Start(0, 1),
            Answer::Started(Err(Refusal::NoSuchBlock)),
        ),
        (Step::Finish(0), Answer::Finished(Err(Refusal::NoSuchBlock))),
        (Step::Read(0), Answer::Copied(Err(Refusal::NoSuchBlock), 7)),
    ];

    #[test]
    fn unfit_and_empty_disks() -> Result<(), Fail> {
        let mut bytes = [0u8; 768];
        plays(&mut Plain::new(&mut bytes, 3, 1), &NO_BLOCKS)?;
        plays(&mut Plain::new(&mut bytes, 3, 0), &NO_BLOCKS)?;
        plays(&mut Plain::new(&mut bytes, 0, 3), &NO_BLOCKS)
    }

    // The ninth write waits until one is finished, and takes the place that this one leaves.
    const FULL_AIR: [(Step, Answer); 12] = [
        (Step::Start(0, 1), Answer::Started(Ok(()))),
        (Step::Start(1, 1), Answer::Started(Ok(()))),
        (Step::Start(2, 1), Answer::Started(Ok(()))),
        (Step::Start(3, 1), Answer::Started(Ok(()))),
        (Step::Start(4, 1), Answer::Started(Ok(()))),
        (Step::Start(5, 1), Answer::Started(Ok(()))),
        (Step::Start(6, 1), Answer::Started(Ok(()))),
        (Step::Start(7, 1), Answer::Started(Ok(()))),
        (
            Step::Start(8, 2),
            Answer::Started(Err(Refusal::BlockNotOpen)),
        ),
        (Step::Finish(3), Answer::Finished(Ok(Outcome::Written))),
        (Step::Start(8, 2), Answer::Started(Ok(()))),
        (
            Step::Start(3, 3),
            Answer::Started(Err(Refusal::BlockNotOpen)),
        ),
    ];

    #[test]
    fn nine_blocks_eight_places(rt: HostRuntime) -> Result<(), Fail> {
        let mut bytes = [0u8; 4352];
        plays(&mut Plain::new(&mut bytes, 9, 8), &FULL_AIR)?;
        assert_eq!(rt; bytes[2304 + 256 * 3], 2);
        Ok(())
    }

    // All tables of the plain disk, one after the other.
    #[test]
    fn plain_disk_over_rows(rt: HostRuntime) -> Result<(), Fail> {
        let mut small = [9u8; 768];
        let mut large = [0u8; 4352];
        assert_eq!(rt; Plain::check(&small, 2, 1), Ok(()));
        assert_eq!(rt; Plain::check(&small, 3, 1), Err(Refusal::UnfitBytes));
        plays(&mut Plain::new(&mut small, 2, 1), &ONE_PLACE)?;
        plays(&mut Plain::new(&mut small, 3, 1), &NO_BLOCKS)?;
        plays(&mut Plain::new(&mut large, 9, 8), &FULL_AIR)?;
        assert_eq!(rt; small[255], 1);
        assert_eq!(rt; small[256], 9);
        assert_eq!(rt; large[2304 + 256 * 3], 2);
        Ok(())
    }

    #[test]
    fn fitting_pages(rt: HostRuntime) {
        let bytes = [0u8; 20736];
        let lives = [1u16; 81];
        let unfit = Err(Refusal::UnfitBytes);
        assert_eq!(rt; Paged::check(&bytes[0..512], 1, &lives[0..2]), Ok(()));
        assert_eq!(rt; Paged::check(&bytes[0..511], 1, &lives[0..2]), unfit);
        assert_eq!(rt; Paged::check(&bytes[0..512], 2, &lives[0..2]), unfit);
        assert_eq!(rt; Paged::check(&bytes[0..512], 0, &lives[0..2]), unfit);
        assert_eq!(rt; Paged::check(&bytes[0..256], 1, &lives[0..1]), unfit);
        assert_eq!(rt; Paged::check(&bytes[0..20480], 64, &lives[0..80]), Ok(()));
        assert_eq!(rt; Paged::check(&bytes[0..20480], 65, &lives[0..80]), unfit);
        assert_eq!(rt; Paged::check(&bytes[0..20736], 64, &lives[0..81]), unfit);
    }

    #[test]
    fn unfit_pages() -> Result<(), Fail> {
        let mut bytes = [0u8; 512];
        plays(&mut Paged::new(&mut bytes, 2, &[1, 1]), &NO_BLOCKS)?;
        plays(&mut Paged::new(&mut bytes, 1, &[1, 1, 1]), &NO_BLOCKS)
    }

    // Two writes succeed, the third fails, and then no start is accepted.
    const TWO_PAGES: [(Step, Answer); 15] = [
        (Step::Blocks, Answer::Number(1)),
        (Step::Start(0, 1), Answer::Started(Ok(()))),
        (Step::Image(0), Answer::Copied(Ok(()), 1)),
        (Step::Read(0), Answer::Copied(Ok(()), 9)),
        (Step::Finish(0), Answer::Finished(Ok(Outcome::Written))),
        (Step::Read(0), Answer::Copied(Ok(()), 1)),
        (Step::Start(0, 2), Answer::Started(Ok(()))),
        (Step::Finish(0), Answer::Finished(Ok(Outcome::Written))),
        (Step::Start(0, 3), Answer::Started(Ok(()))),
        (
            Step::Start(0, 3),
            Answer::Started(Err(Refusal::BlockInFlight)),
        ),
        (
            Step::Finish(0),
            Answer::Finished(Ok(Outcome::Failed { layer: 1, block: 0 })),
        ),
        (
            Step::Finish(0),
            Answer::Finished(Err(Refusal::BlockNotInFlight)),
        ),
        (
            Step::Start(0, 4),
            Answer::Started(Err(Refusal::BlockNotOpen)),
        ),
        (Step::Still, Answer::Truth(true)),
        (Step::Read(0), Answer::Copied(Ok(()), 2)),
    ];

    #[test]
    fn one_block_two_pages(rt: HostRuntime) -> Result<(), Fail> {
        let mut bytes = [9u8; 512];
        let mut disk = Paged::new(&mut bytes, 1, &[1, 1]);
        assert_eq!(rt; disk.is_spent(), false);
        plays(&mut disk, &TWO_PAGES)?;
        assert_eq!(rt; disk.is_spent(), true);
        Ok(())
    }

    // Of the spare pages 2 to 5 with lives 2, 3, 3, 1, page 3 is taken, then 4, then 2.
    const EQUAL_LIVES: [(Step, Answer); 8] = [
        (Step::Start(0, 1), Answer::Started(Ok(()))),
        (Step::Start(1, 2), Answer::Started(Ok(()))),
        (Step::Finish(0), Answer::Finished(Ok(Outcome::Written))),
        (Step::Start(0, 3), Answer::Started(Ok(()))),
        (Step::Read(0), Answer::Copied(Ok(()), 1)),
        (Step::Read(1), Answer::Copied(Ok(()), 9)),
        (Step::Flying(1), Answer::Truth(true)),
        (
            Step::Start(2, 1),
            Answer::Started(Err(Refusal::NoSuchBlock)),
        ),
    ];

    #[test]
    fn lower_page_of_equal_lives(rt: HostRuntime) -> Result<(), Fail> {
        let mut bytes = [9u8; 1536];
        plays(
            &mut Paged::new(&mut bytes, 2, &[1, 1, 2, 3, 3, 1]),
            &EQUAL_LIVES,
        )?;
        assert_eq!(rt; bytes[256 * 3], 1);
        assert_eq!(rt; bytes[256 * 4], 2);
        assert_eq!(rt; bytes[256 * 2], 3);
        assert_eq!(rt; bytes[256 * 5], 9);
        Ok(())
    }

    // Pages without life: each write fails and retires its page, until no spare page is left.
    const NO_LIFE: [(Step, Answer); 12] = [
        (Step::Start(1, 1), Answer::Started(Ok(()))),
        (
            Step::Finish(1),
            Answer::Finished(Ok(Outcome::Failed { layer: 1, block: 1 })),
        ),
        (Step::Start(0, 1), Answer::Started(Ok(()))),
        (Step::Start(1, 1), Answer::Started(Ok(()))),
        (
            Step::Finish(1),
            Answer::Finished(Ok(Outcome::Failed { layer: 1, block: 1 })),
        ),
        (Step::IsOpen(1), Answer::Truth(false)),
        (
            Step::Finish(0),
            Answer::Finished(Ok(Outcome::Failed { layer: 1, block: 0 })),
        ),
        (Step::IsOpen(0), Answer::Truth(false)),
        (
            Step::Start(1, 1),
            Answer::Started(Err(Refusal::BlockNotOpen)),
        ),
        (Step::Still, Answer::Truth(true)),
        (Step::Read(0), Answer::Copied(Ok(()), 9)),
        (Step::Read(1), Answer::Copied(Ok(()), 9)),
    ];

    #[test]
    fn all_spare_pages_retired(rt: HostRuntime) -> Result<(), Fail> {
        let mut bytes = [9u8; 1280];
        let mut disk = Paged::new(&mut bytes, 2, &[0, 0, 0, 0, 0]);
        assert_eq!(rt; disk.is_spent(), false);
        plays(&mut disk, &NO_LIFE)?;
        assert_eq!(rt; disk.is_spent(), true);
        Ok(())
    }

    // Blocks 0 and 1 are the plain disk's, block 2 is the page disk's.
    const JOINED: [(Step, Answer); 16] = [
        (Step::Blocks, Answer::Number(3)),
        (Step::Start(1, 1), Answer::Started(Ok(()))),
        (Step::IsOpen(0), Answer::Truth(false)),
        (Step::IsOpen(2), Answer::Truth(true)),
        (Step::Start(2, 2), Answer::Started(Ok(()))),
        (Step::Image(1), Answer::Copied(Ok(()), 1)),
        (Step::Image(2), Answer::Copied(Ok(()), 2)),
        (
            Step::Finish(2),
            Answer::Finished(Ok(Outcome::Failed { layer: 2, block: 0 })),
        ),
        (Step::Still, Answer::Truth(false)),
        (Step::Finish(1), Answer::Finished(Ok(Outcome::Written))),
        (Step::Still, Answer::Truth(true)),
        (Step::Read(1), Answer::Copied(Ok(()), 1)),
        (Step::Read(2), Answer::Copied(Ok(()), 9)),
        (
            Step::Start(3, 1),
            Answer::Started(Err(Refusal::NoSuchBlock)),
        ),
        (
            Step::StartShort(3),
            Answer::Started(Err(Refusal::UnfitBytes)),
        ),
        (
            Step::ReadShort(3),
            Answer::Copied(Err(Refusal::UnfitBytes), 7),
        ),
    ];

    #[test]
    fn plain_and_pages() -> Result<(), Fail> {
        let mut bytes = [9u8; 768];
        let mut pages = [9u8; 512];
        let left = Plain::new(&mut bytes, 2, 1);
        plays(
            &mut Join::new(left, Paged::new(&mut pages, 1, &[0, 0])),
            &JOINED,
        )
    }

    const WIDE: [(Step, Answer); 6] = [
        (Step::Blocks, Answer::Number(65535)),
        (Step::IsOpen(65533), Answer::Truth(true)),
        (Step::Start(65534, 1), Answer::Started(Ok(()))),
        (Step::Flying(65534), Answer::Truth(true)),
        (
            Step::Finish(65534),
            Answer::Finished(Ok(Outcome::Failed { layer: 2, block: 1 })),
        ),
        (Step::IsOpen(65535), Answer::Truth(false)),
    ];

    #[test]
    fn most_blocks_of_a_join() -> Result<(), Fail> {
        plays(
            &mut Join::new(Faulty::new(65533, 1), Faulty::new(2, 1)),
            &WIDE,
        )?;
        plays(
            &mut Join::new(Faulty::new(65534, 1), Faulty::new(2, 1)),
            &NO_BLOCKS,
        )
    }

    // The layer of a failure goes up by 1 for each join, and stays at 255.
    const LAYERS: [(Step, Answer); 8] = [
        (Step::Start(0, 1), Answer::Started(Ok(()))),
        (
            Step::Finish(0),
            Answer::Finished(Ok(Outcome::Failed {
                layer: 255,
                block: 0,
            })),
        ),
        (Step::Start(1, 1), Answer::Started(Ok(()))),
        (
            Step::Finish(1),
            Answer::Finished(Ok(Outcome::Failed {
                layer: 255,
                block: 0,
            })),
        ),
        (Step::Start(2, 1), Answer::Started(Ok(()))),
        (
            Step::Finish(2),
            Answer::Finished(Ok(Outcome::Failed { layer: 8, block: 0 })),
        ),
        (Step::Start(3, 1), Answer::Started(Ok(()))),
        (
            Step::Finish(3),
            Answer::Finished(Ok(Outcome::Failed { layer: 8, block: 1 })),
        ),
    ];

    #[test]
    fn layers_of_a_pile() -> Result<(), Fail> {
        let left = Join::new(Faulty::new(1, 255), Faulty::new(1, 253));
        plays(
            &mut Join::new(left, Join::new(Faulty::new(0, 9), Faulty::new(2, 6))),
            &LAYERS,
        )
    }

    // One state with nothing in flight, then two, then four.
    // Runtime and disk stay apart: no other helper takes both.
    fn doubles<D: InFlight>(rt: &HostRuntime, disk: &mut D) -> Result<(), Fail> {
        check_eq(states(rt.alloc(), disk)?.len(), 1)?;
        check_eq(call(disk, Step::Start(1, 5)), Answer::Started(Ok(())))?;
        check_eq(states(rt.alloc(), disk)?.len(), 2)?;
        check_eq(call(disk, Step::Start(0, 6)), Answer::Started(Ok(())))?;
        check_eq(states(rt.alloc(), disk)?.len(), 4)
    }

    #[test]
    fn states_of_a_loss(rt: HostRuntime) -> Result<(), Fail> {
        let mut bytes = [0u8; 1024];
        doubles(&rt, &mut Plain::new(&mut bytes, 2, 2))
    }

    #[test]
    fn shown_outcomes(rt: HostRuntime) -> Result<(), Fail> {
        let written = Outcome::Written.to_string(rt.alloc())?;
        assert_eq!(rt; written.as_str(), "written");
        let failed = Outcome::Failed { layer: 2, block: 7 }.to_string(rt.alloc())?;
        assert_eq!(rt; failed.as_str(), "failed in layer 2 at block 7");
        let memory = Unlisted::Memory.to_string(rt.alloc())?;
        assert_eq!(rt; memory.as_str(), "no memory");
        let many = Unlisted::TooManyInFlight.to_string(rt.alloc())?;
        assert_eq!(rt; many.as_str(), "too many blocks in flight");
        Ok(())
    }

    #[test]
    fn shown_refusals(rt: HostRuntime) -> Result<(), Fail> {
        let misplaced = Refusal::MisplacedWord { place: 3 }.to_string(rt.alloc())?;
        assert_eq!(rt; misplaced.as_str(), "refused 8 3");
        let full = Refusal::BlockNotOpen.to_string(rt.alloc())?;
        assert_eq!(rt; full.as_str(), "refused 28 0");
        Ok(())
    }
}
