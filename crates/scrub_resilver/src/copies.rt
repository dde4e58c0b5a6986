//! The copies of a block.
ghost use Rattle.std.specs.Prelude.{ℕ, ◌≡◌, ◌<◌, List, Some, None, IfOk, IfSome, length, slice_get};
ghost use Rattle.block_pointer.specs.Copies.{dvas};
ghost use Rattle.block_pointer.specs.declared.block.Block.{Block as BlockOf};
ghost use Rattle.raidz_io.specs.declared.vdev.Extent.{Extent as ExtentOf};
ghost use Rattle.raidz_io.specs.Places.{CanHold, IsOnDisks};
ghost use Rattle.scrub_resilver.specs.Copies.{HaveRoom, IsExtentOn};

use arrayvec::ArrayVec;
use block_pointer::{Copies, Dva};
use block_store::VdevShape;
use raidz_io::{Extent, extent_fits};

/// The places of the copies.
pub(crate) fn places_of(copies: Copies) -> ArrayVec<Dva, 3>
    ensures { result.items ≡ dvas copies }
{
    let mut places = ArrayVec::new();
    match copies {
        Copies::One(first) => places.push(first),
        Copies::Two(first, second) => {
            places.push(first);
            places.push(second);
        }
        Copies::Three(first, second, third) => {
            places.push(first);
            places.push(second);
            places.push(third);
        }
    }
    places
}

/// Where a copy of a block of so many sectors lies: nowhere, where it has no sector, there is no such vdev, or it passes the vdev's end.
pub(crate) fn extent_at(shapes: &[VdevShape], place: Dva, sectors: u32) -> Option<Extent>
    ensures at { IfSome result (λ extent. IsExtentOn shapes.now sectors place extent) }
    ensures fits { IfSome result (λ extent. (starts : List (List ℕ)) → HaveRoom shapes.now starts
        → CanHold extent × IsOnDisks extent starts) }
    ensures only { result ≡ None → (extent : ExtentOf) → 0 < sectors
        → IsExtentOn shapes.now sectors place extent → ⊥ }
{
    extent_fits();
    let Some(shape) = shapes.get(place.vdev as usize) else {
        return None;
    };
    let size = shape.vdev.geometry.asize(sectors);
    let end = shape.sectors();
    if sectors == 0 || end < size || end - size < place.offset {
        return None;
    }
    Some(Extent {
        vdev: shape.vdev,
        start: place.offset,
        sectors,
    })
}
