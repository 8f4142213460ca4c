// Starts and finishes writes on a small plain disk, and shows what a loss of supply can leave in between.
#![tactic(auto)]

use disk::{BLOCK, InFlight};
use plain_disk::Plain;
use power_loss::{State, states};
use std::{fmt, io};

const BLOCKS: u16 = 4;

const PLACES: u8 = 2;

const BYTES: usize = BLOCK * (BLOCKS as usize + PLACES as usize);

// A state as it is shown: which blocks got written, or "-", then the first bytes of each block.
#[derive(Drop)]
struct Shown<'a>(&'a State);

impl fmt::Display for Shown<'_> {
    fn fmt<W: fmt::Write>(&self, f: &mut fmt::Formatter<W>) -> fmt::Result {
        f.write_str("written")?;
        if self.0.written.is_empty() {
            f.write_str(" -")?;
        }
        for b in &self.0.written {
            write!(f, " {b}")?;
        }
        f.write_str(" |")?;
        for [a, b, c, d, ..] in &self.0.blocks {
            write!(f, " {a:02x}{b:02x}{c:02x}{d:02x}")?;
        }
        Ok(())
    }
}

// A disk on which calls are made and their answers printed.
#[derive(Drop)]
struct Scene<'a, D: InFlight + Drop> {
    rt: &'a HostRuntime,
    disk: D,
}

impl<D: InFlight + Drop> Scene<'_, D> {
    // Starts a write of a block full of one byte, and prints the answer.
    fn start(&mut self, b: u16, byte: u8) -> io::Result<()> {
        match self.disk.start(b, &[byte; BLOCK]) {
            Ok(()) => println!(self.rt; "start {b} with {byte:02x}: accepted"),
            Err(why) => println!(self.rt; "start {b} with {byte:02x}: {why}"),
        }
    }

    // Finishes the write of a block, and prints the answer.
    fn finish(&mut self, b: u16) -> io::Result<()> {
        match self.disk.finish(b) {
            Ok(outcome) => println!(self.rt; "finish {b}: {outcome}"),
            Err(why) => println!(self.rt; "finish {b}: {why}"),
        }
    }

    // Prints every state that a loss of supply can leave now.
    fn list(&mut self) -> io::Result<()> {
        match states(self.rt.alloc(), &mut self.disk) {
            Ok(all) => {
                println!(self.rt; "a loss of supply now leaves one of:")?;
                for state in &all {
                    println!(self.rt; "  {}", Shown(state))?;
                }
                Ok(())
            }
            Err(why) => println!(self.rt; "{why} to list the states"),
        }
    }
}

fn main(rt: HostRuntime) -> io::Result<()> {
    let mut bytes = [0u8; BYTES];
    println!(rt; "{BLOCKS} blocks of {BLOCK} bytes, {PLACES} places for images in flight")?;
    let mut scene = Scene {
        rt: &rt,
        disk: Plain::new(&mut bytes, BLOCKS, PLACES),
    };
    scene.list()?;
    scene.start(0, 0x11)?;
    scene.start(2, 0x22)?;
    scene.start(3, 0x33)?;
    scene.list()?;
    scene.finish(0)?;
    scene.list()?;
    scene.finish(0)?;
    scene.start(3, 0x33)?;
    scene.start(BLOCKS, 0x44)?;
    scene.list()
}
