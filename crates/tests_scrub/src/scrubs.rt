//! What is found of blocks and mended, on disks that are spoilt, missing or fail.
use crate::cases::{FAILING, FIVE, MISPLACED, THREE};
use crate::lines::Call;
use crate::pools::{NO_FAULT, SPOILT, Stored, TestDisk, array_of, bytes_of, write_pool};
use crate::rooms::have_room;
use block_pointer::{Block, Copies, Dva};
use block_store::VdevShape;
use model_disk::{DiskArray, Fault};
use scrub_resilver::{Finding, check, mend};
use std::alloc::Global;
use std::mem;
use std::test::Fail;

/// Blocks, what their disks hold, and what they held once the blocks were written. One disk has a fault.
#[derive(Drop)]
struct Pool {
    shapes: Vec<VdevShape>,
    blocks: Vec<Block>,
    disks: Vec<Vec<u8>>,
    written: Vec<Vec<u8>>,
    fault: (usize, Fault),
}

/// The places of the blocks' copies.
fn places(alloc: Global, blocks: &[Block]) -> Result<String, Fail> {
    let mut text = String::new(alloc);
    for block in blocks {
        for copy in 0..3 {
            if let Some(place) = block.copies.get(copy) {
                text.push_str(format!(in alloc; "{}@{} ", place.vdev, place.offset)?.as_str())?;
            }
        }
    }
    Ok(text)
}

/// The findings in their order: the place of each copy, and behind it its columns, each with its disk.
fn told(alloc: Global, found: &[Finding]) -> Result<String, Fail> {
    let mut text = String::new(alloc);
    let mut last = (0, 0, 0);
    for it in found {
        let place = (it.vdev, it.start, it.sectors);
        if place != last {
            let (vdev, start, sectors) = place;
            text.push_str(format!(in alloc; "{vdev}@{start}+{sectors} ")?.as_str())?;
        }
        last = place;
        let (column, disk, fault) = (it.column, it.disk, it.fault);
        text.push_str(format!(in alloc; "{column}:{disk} {fault:?} ")?.as_str())?;
    }
    if text.is_empty() {
        text.push_str("nothing")?;
    }
    Ok(text)
}

/// What comes of mending: the numbers of the disks whose flush failed.
fn mended(alloc: Global, unflushed: &[usize]) -> Result<String, Fail> {
    let mut text = String::new(alloc);
    text.push_str("ok")?;
    for disk in unflushed {
        text.push_str(format!(in alloc; " unflushed {disk}")?.as_str())?;
    }
    Ok(text)
}

/// What comes of a look at the blocks, or of mending them. The numbers of the call are the disks that are missing.
fn scrubbed(
    alloc: Global,
    disks: &mut DiskArray<TestDisk>,
    shapes: &[VdevShape],
    blocks: &[Block],
    call: &Call,
) -> Result<String, Fail> {
    if !have_room(disks, shapes) {
        return Err(Fail::new("the disks are too small"));
    }
    let refusal = if call.name == "mend" {
        match mend(disks, alloc, shapes, blocks, &call.numbers) {
            Ok(unflushed) => return mended(alloc, &unflushed),
            Err(refusal) => refusal,
        }
    } else {
        match check(disks, alloc, shapes, blocks, &call.numbers) {
            Ok(found) => return told(alloc, &found),
            Err(refusal) => refusal,
        }
    };
    Ok(format!(in alloc; "{refusal:?}")?)
}

impl Pool {
    /// A letter for each disk: `w` where each byte is as it was written, `s` where each is spoilt, `o` for others.
    fn states(&self, alloc: Global) -> Result<String, Fail> {
        let mut text = String::new(alloc);
        for (now, written) in self.disks.iter().zip(&self.written) {
            text.push_str(if now == written {
                "w"
            } else if now.iter().all(|byte| *byte == SPOILT) {
                "s"
            } else {
                "o"
            })?;
        }
        Ok(text)
    }

    /// Moves a copy of a block: the third, where that is asked and there is one, or else the first, which is the only one then.
    fn move_copy(&mut self, call: &Call) {
        let [which, copy, vdev, sector] = call.numbers.as_slice() else {
            return;
        };
        let Some(block) = self.blocks.get_mut(*which) else {
            return;
        };
        let place = Dva {
            vdev: (*vdev).min(9) as u32,
            offset: *sector as u64,
            allocated: 1,
        };
        block.copies = match block.copies {
            Copies::Three(first, second, _) if *copy == 2 => { Copies::Three(first, second, place) }
            _ => Copies::One(place),
        };
    }

    /// What comes of a call.
    fn answer(&mut self, alloc: Global, call: &Call) -> Result<String, Fail> {
        let (disk, number) = match call.numbers.as_slice() {
            [disk, number] => (*disk, *number as u64),
            _ => (0, u64::MAX),
        };
        match call.name {
            "check" | "mend" => {
                let disks = mem::replace(&mut self.disks, Vec::new(alloc));
                let mut disks = array_of(alloc, disks, self.fault)?;
                let text = scrubbed(alloc, &mut disks, &self.shapes, &self.blocks, call)?;
                self.disks = bytes_of(alloc, disks)?;
                return Ok(text);
            }
            "disks" => return self.states(alloc),
            "spoil" => {
                for which in &call.numbers {
                    if let Some(bytes) = self.disks.get_mut(*which) {
                        *bytes = vec![in alloc; SPOILT; bytes.len()]?;
                    }
                }
            }
            "move" => self.move_copy(call),
            "fails_write" => self.fault = (disk, Fault::Write(number)),
            "fails_read" => self.fault = (disk, Fault::Read(number)),
            "fails_flush" => self.fault = (disk, Fault::Flush(number)),
            "fails_from" => self.fault = (disk, Fault::From(number)),
            "sound" => self.fault = NO_FAULT,
            _ => {
                let Stored {
                    shapes,
                    blocks,
                    disks,
                } = write_pool(alloc, call)?;
                let written = disks.clone()?;
                *self = Pool {
                    shapes,
                    blocks,
                    disks,
                    written,
                    fault: NO_FAULT,
                };
                return places(alloc, &self.blocks);
            }
        }
        Ok(format!(in alloc; "so")?)
    }
}

#[test]
fn spoilt_blocks_are_found_and_mended(rt: HostRuntime) -> Result<(), Fail> {
    let alloc = rt.alloc();
    let mut pool = Pool {
        shapes: Vec::new(alloc),
        blocks: Vec::new(alloc),
        disks: Vec::new(alloc),
        written: Vec::new(alloc),
        fault: NO_FAULT,
    };
    let mut wrong = String::new(alloc);
    for cases in &[THREE, FIVE, FAILING, MISPLACED] {
        for (line, wanted) in cases.iter() {
            let mut came = String::new(alloc);
            for text in line.split(';') {
                let answer = pool.answer(alloc, &Call::parse(alloc, text)?)?;
                if !came.is_empty() {
                    came.push_str("; ")?;
                }
                came.push_str(answer.as_str().trim())?;
            }
            if !came.split_whitespace().eq(wanted.split_whitespace()) {
                wrong.push_str(format!(in alloc; "{line} -> {came}\n")?.as_str())?;
            }
        }
    }
    assert!(rt; wrong.is_empty(), "{wrong}");
    Ok(())
}
