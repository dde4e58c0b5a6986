//! Blocks that can have a row of a dead list.
ghost use Rattle.std.specs.Prelude.{◌↔◌, ◌≡◌, ◌<◌, All, IfErr, IsTrue, OnOk};
ghost use Rattle.block_pointer.specs.Block.{FitsBlock};
ghost use Rattle.block_pointer.specs.Copies.{FitsCopies};
ghost use Rattle.block_pointer.specs.Dva.{FitsDva};
ghost use Rattle.block_pointer.specs.Property.{FitsProperty};
ghost use Rattle.dataset_chains.specs.Refused.{IsBlockMisfit};

use block_pointer::{Block, Copies, Dva, Property};
use block_store::Refusal;

const OFFSETS_END: u64 = 1 << 63;

const ALLOCATED_END: u32 = 1 << 24;

const LAST_LEVEL: u8 = 5;

const MOST_SECTORS: u32 = 1 << 16;

/// `BadPointer` where one of the blocks can't have a row.
pub(crate) fn expect_rows(blocks: &[Block]) -> Result<(), Refusal>
    ensures fit { OnOk result (All FitsBlock blocks.now) }
    ensures refused { IfErr result (IsBlockMisfit blocks.now) }
{
    for block in blocks {
        if !can_stand(block) {
            return Err(Refusal::BadPointer);
        }
    }
    Ok(())
}

/// Whether a block can have a row.
fn can_stand(block: &Block) -> bool
    ensures { IsTrue result ↔ FitsBlock block.now }
{
    let Block {
        copies,
        property,
        birth,
        fill,
        ..
    } = *block;
    copies_fit(copies) && property_fits(property) && 0 < birth && fill_fits(property.level, fill)
}

/// A data block has itself alone below it, and an indirect one some data.
fn fill_fits(level: u8, fill: u64) -> bool
    ensures { IsTrue result ↔ ((0 < fill) × (level ≡ 0 → fill ≡ 1)) }
{
    if level == 0 { fill == 1 } else { 0 < fill }
}

fn property_fits(property: Property) -> bool
    ensures { IsTrue result ↔ FitsProperty property }
{
    property.level <= LAST_LEVEL && 0 < property.sectors && property.sectors <= MOST_SECTORS
}

fn copies_fit(copies: Copies) -> bool
    ensures { IsTrue result ↔ FitsCopies copies }
{
    match copies {
        Copies::One(first) => place_fits(first),
        Copies::Two(first, second) => place_fits(first) && place_fits(second),
        Copies::Three(first, second, third) => {
            place_fits(first) && place_fits(second) && place_fits(third)
        }
    }
}

fn place_fits(place: Dva) -> bool
    ensures { IsTrue result ↔ FitsDva place }
{
    place.offset < OFFSETS_END && 0 < place.allocated && place.allocated < ALLOCATED_END
}
