//! Dead lists, which are joined and parted by the groups that their blocks were born in.
use crate::lines::{Bench, Call, wrong_lines};
use block_pointer::{Block, Copies, Dva, Property};
use dead_list::DeadList;
use std::alloc::{AllocError, Global};
use std::mem;
use std::test::Fail;

/// `list` makes a list of blocks that were born in these groups. `join` has the blocks of another list join it, and tells whether
/// that one is empty then. `part` has a group: it hands out the groups of the blocks that were born after it, and of the others,
/// in ascending order.
const LISTS: &[(&str, &str)] = &[
    // A list joins another.
    ("list 7; join 5 7", "1 blocks; 3 blocks, other empty: true"),
    // A list is parted by birth: in the midst, before all blocks, behind all.
    (
        "list 7 5 6; join 8 6; part 6",
        "3 blocks; 5 blocks, other empty: true; 7 8 and 5 6 6",
    ),
    (
        "list 7 5 6; join 8 6; part 4",
        "3 blocks; 5 blocks, other empty: true; 5 6 6 7 8 and none",
    ),
    (
        "list 7 5 6; join 8 6; part 8",
        "3 blocks; 5 blocks, other empty: true; none and 5 6 6 7 8",
    ),
];

/// A block of 8 KiB with one copy.
const BLOCK: Block = Block {
    copies: Copies::One(Dva {
        vdev: 3,
        offset: 0x0123_4567,
        allocated: 18,
    }),
    property: Property {
        level: 0,
        object_type: 23,
        sectors: 16,
    },
    birth: 1,
    fill: 1,
    checksum: [0xee; 32],
};

#[derive(Drop)]
struct Lists {
    list: DeadList,
}

/// The groups that the blocks of a list were born in, in ascending order.
fn births(alloc: Global, list: DeadList) -> Result<String, AllocError> {
    let blocks = list.into_blocks()?;
    let mut births: Vec<u64> = blocks.iter().map(|block| block.birth).collect(alloc)?;
    births.sort()?;
    let mut text = String::new(alloc);
    for birth in births {
        write!(text, " {birth}")?;
    }
    if text.is_empty() {
        text.push_str(" none")?;
    }
    Ok(text)
}

impl Bench for Lists {
    fn answer(&mut self, alloc: Global, call: &Call) -> Result<String, Fail> {
        if let ("part", [group]) = (call.name, call.numbers.as_slice()) {
            let after = self.list.split_at(alloc, *group)?;
            let until = mem::replace(&mut self.list, DeadList::new(alloc));
            let mut text = births(alloc, after)?;
            text.push_str(" and")?;
            text.push_str(births(alloc, until)?.as_str())?;
            return Ok(text);
        }
        let mut list = DeadList::new(alloc);
        for birth in &call.numbers {
            list.push(Block {
                birth: *birth,
                ..BLOCK
            })?;
        }
        match call.name {
            "list" => {
                self.list = list;
                Ok(format!(in alloc; "{} blocks", self.list.len())?)
            }
            "join" => {
                self.list.merge(&mut list)?;
                let (count, is_empty) = (self.list.len(), list.is_empty());
                Ok(format!(in alloc; "{count} blocks, other empty: {is_empty}")?)
            }
            _ => Err(Fail::new(format_args!("no call {}", call.name))),
        }
    }
}

#[test]
fn lists_are_joined_and_parted(rt: HostRuntime) -> Result<(), Fail> {
    let list = DeadList::new(rt.alloc());
    let wrong = wrong_lines(&rt, rt.alloc(), &mut Lists { list }, LISTS)?;
    assert!(rt; wrong.is_empty(), "{wrong}");
    Ok(())
}
