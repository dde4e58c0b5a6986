//! Layouts of blocks, worked by hand.
use crate::lines::{Bench, Call};
use raidz_map::Geometry;
use std::alloc::Global;
use std::test::Fail;

/// `vdev` has how many children and parities a vdev has, and the shift of its sectors, and `block` the
/// first sector of a block on it and how many it has. Of each column come its child, its first sector
/// there and its sectors, and then how many sectors the block takes up.
pub(crate) const LAYOUTS: &[(&str, &str)] = &[
    // Two full rows.
    (
        "vdev 5 1 9; block 0 8",
        "taken; 0@0+2 1@0+2 2@0+2 3@0+2 4@0+2 parities 1 allocated 10",
    ),
    // A row that wraps.
    (
        "vdev 5 1 9; block 7 3",
        "taken; 2@1+1 3@1+1 4@1+1 0@2+1 parities 1 allocated 4",
    ),
    // A row that is padded.
    (
        "vdev 5 1 9; block 7 2",
        "taken; 2@1+1 3@1+1 4@1+1 parities 1 allocated 4",
    ),
    // Two parities.
    (
        "vdev 6 2 9; block 10 5",
        "taken; 4@1+2 5@1+2 0@2+2 1@2+1 2@2+1 3@2+1 parities 2 allocated 9",
    ),
    // The first two columns are exchanged.
    (
        "vdev 3 1 9; block 2048 2",
        "taken; 0@683+1 2@682+1 1@683+1 parities 1 allocated 4",
    ),
    // The limits of geometries.
    ("vdev 32 2 9", "taken"),
    ("vdev 33 1 9", "BadConfig"),
    ("vdev 2 2 9", "BadConfig"),
    ("vdev 5 1 12", "BadConfig"),
];

/// The vdev that was taken last.
#[derive(Drop)]
pub(crate) struct Layouts(pub(crate) Option<Geometry>);

impl Bench for Layouts {
    fn answer(&mut self, alloc: Global, call: &Call) -> Result<String, Fail> {
        if let (Some(geometry), "block") = (self.0, call.name) {
            let sectors = u32::try_from(call.number(1))?;
            let columns = geometry.map(call.number(0) as u64, sectors);
            let mut text = String::new(alloc);
            for it in columns.columns.as_slice() {
                let place = format!(in alloc; "{}@{}+{} ", it.child, it.sector, it.sectors)?;
                text.push_str(place.as_str())?;
            }
            let (parity, allocated) = (columns.parity, columns.allocated);
            return Ok(format!(in alloc; "{text}parities {parity} allocated {allocated}")?);
        }
        let children = u32::try_from(call.number(0))?;
        let parity = u32::try_from(call.number(1))?;
        match Geometry::new(children, parity, u32::try_from(call.number(2))?) {
            Ok(geometry) => {
                self.0 = Some(geometry);
                Ok(format!(in alloc; "taken")?)
            }
            Err(refusal) => Ok(format!(in alloc; "{refusal:?}")?),
        }
    }
}
