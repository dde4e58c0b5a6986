//! The children of a configuration, and which disk is which.
ghost use Rattle.std.specs.Prelude.{◌≡◌, ◌++◌, ◌≤◌, ◌^◌, length, map, All, IfOk, OnOk};
ghost use Rattle.vdev_label.specs.Limits.{IsAllowedVdev};
ghost use Rattle.vdev_label.specs.Plain.{config_view};
ghost use Rattle.pool_open.specs.Children.{all_children, child_of};

use pool_members::Child;
use std::alloc::{AllocError, Global};
use vdev_label::Config;

/// The bytes of a sector.
const SECTOR_LEN: u64 = 512;

/// The sectors of a disk that hold no blocks: those of its labels, and 3.5 MiB behind the first two.
const OTHER_SECTORS: u64 = 9216;

/// Adds the children of a vdev, each with its disk.
fn add_children(
    children: &mut Vec<Child>,
    sectors: u64,
    found: &[Option<usize>],
) -> Result<(), AllocError>
    requires sectors { sectors ≤ 2 ^ 34 }
    ensures { OnOk result (children.new.items
        ≡ children.old.items ++ map (child_of sectors) found.now) }
{
    let size = (sectors + OTHER_SECTORS) * SECTOR_LEN;
    for i in 0..found.len() {
        children.push(Child {
            disk: found[i],
            size,
        })?;
    }
    Ok(())
}

/// The children of all vdevs, in order: each with the disk that was found for it, and the bytes that its vdev takes
/// of a disk. `members` has a list for each vdev, with the disk of each child, as `pool_labels` finds them.
pub fn children_of(
    alloc: Global,
    config: &Config,
    members: &[Vec<Option<usize>>],
) -> Result<Vec<Child>, AllocError>
    requires count { length members.now ≡ length (config_view config.now) }
    requires allowed { All IsAllowedVdev (config_view config.now) }
    ensures { IfOk result (λ children. children.items
        ≡ all_children (config_view config.now) members.now) }
{
    let mut children = Vec::new(alloc);
    for i in 0..config.vdevs.len() {
        add_children(&mut children, config.vdevs[i].child_sectors, &members[i])?;
    }
    Ok(children)
}
