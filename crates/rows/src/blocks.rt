ghost use Rattle.std.specs.Prelude.{◌≡◌, Decides};
ghost use Rattle.rows.specs.Blocks.{Has, Whole, block, put_block, FitsRule, GetRule, PutRule, MoveRule};

use disk::{BLOCK, check_bytes};
use refusal::Refusal;

// Whether a row has block i.
fn has(row: &[u8], i: usize) -> bool
    ensures { Decides result (Has i row.now) }
{
    i < row.len() / BLOCK
}

// Refuses an image that is not one block, and a row that does not have block i.
fn check(row: &[u8], i: usize, image: &[u8]) -> Result<(), Refusal>
    ensures { FitsRule row.now i image.now result }
{
    check_bytes(image)?;
    if has(row, i) {
        Ok(())
    } else {
        Err(Refusal::NoSuchBlock)
    }
}

// Copies out block i of a row that has it.
// Slices and no arrays of 256: each call would turn its slice into one, and the error of that into its refusal.
// Ranges and no chunks: contracts say which bytes a block is, and a run of chunks would have to be led back to that.
// That the row has the block ties row and index, which no one type holds; the two stay apart, as in the public calls.
fn copy_out(row: &[u8], i: usize, into: &mut [u8])
    requires { Has i row.now × Whole into.old }
    ensures { into.new ≡ block i row.now }
{
    into.copy_from_slice(&row[BLOCK * i..BLOCK * i + BLOCK]);
}

// Writes an image over block i of a row that has it.
fn copy_in(row: &mut [u8], i: usize, image: &[u8])
    requires { Has i row.old × Whole image.now }
    ensures { row.new ≡ put_block i image.now row.old }
{
    row[BLOCK * i..BLOCK * i + BLOCK].copy_from_slice(image);
}

// Copies out block i of a row.
pub fn get_block(row: &[u8], i: usize, into: &mut [u8]) -> Result<(), Refusal>
    ensures { GetRule row.now i into.old into.new result }
{
    check(row, i, into)?;
    copy_out(row, i, into);
    Ok(())
}

// Writes an image over block i of a row.
pub fn put_block(row: &mut [u8], i: usize, image: &[u8]) -> Result<(), Refusal>
    ensures { PutRule row.old i image.now row.new result }
{
    check(row, i, image)?;
    copy_in(row, i, image);
    Ok(())
}

// Copies one block of a row over another.
pub fn move_block(row: &mut [u8], from: usize, to: usize) -> Result<(), Refusal>
    ensures { MoveRule row.old from to row.new result }
{
    if !has(row, from) || !has(row, to) {
        return Err(Refusal::NoSuchBlock);
    }
    let mut image = [0; BLOCK];
    copy_out(row, from, &mut image);
    copy_in(row, to, &image);
    Ok(())
}
