//! The vdevs of a configuration, as a store divides them.
ghost use Rattle.std.specs.Prelude.{◌≤◌, length, All, IfOk};
ghost use Rattle.vdev_label.specs.Limits.{IsAllowedVdev};
ghost use Rattle.vdev_label.specs.Plain.{config_view, vdev_view};
ghost use Rattle.pool_open.specs.Shapes.{AreShapesOf, IsShapeOf};

use block_store::VdevShape;
use raidz_io::Vdev;
use raidz_map::{Geometry, SECTOR_SHIFT};
use std::alloc::{AllocError, Global};
use vdev_label::Config;

/// A vdev whose first child is the disk of that number.
fn shape_of(vdev: &vdev_label::Vdev, first: usize) -> VdevShape
    requires allowed { IsAllowedVdev (vdev_view vdev.now) }
    ensures { IsShapeOf (vdev_view vdev.now) first result }
{
    let children = vdev.children.len() as u32;
    let parity = vdev.parity as u32;
    let Ok(geometry) = Geometry::new(children, parity, SECTOR_SHIFT) else {
        unreachable!()
    };
    VdevShape {
        vdev: Vdev { geometry, first },
        child_sectors: vdev.child_sectors,
        metaslab_shift: vdev.slab_shift as u32,
        meta_slabs: vdev.meta_slabs,
    }
}

/// The vdevs of a configuration. They take the disks of their children in order, each behind those of the one before.
pub fn shapes_of(alloc: Global, config: &Config) -> Result<Vec<VdevShape>, AllocError>
    requires few { length (config_view config.now) ≤ 8 }
    requires allowed { All IsAllowedVdev (config_view config.now) }
    ensures { IfOk result (λ shapes. AreShapesOf (config_view config.now) 0 shapes.items) }
{
    let mut shapes = Vec::new(alloc);
    let mut first = 0;
    for i in 0..config.vdevs.len() {
        let vdev = &config.vdevs[i];
        shapes.push(shape_of(vdev, first))?;
        first += vdev.children.len();
    }
    Ok(shapes)
}
