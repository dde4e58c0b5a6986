//! What is known of a volume without its bytes.
ghost use Rattle.std.specs.Prelude.{◌≡◌};
ghost use Rattle.pool_model.specs.Pools.{is_origin};
ghost use Rattle.volume_rules.specs.Shapes.{shape_of};

use pool_model::{Name, PlainVolume, VolumeKind};
use std::alloc::AllocError;

/// A volume's size, block size, creation group and kind.
#[derive(Clone, Copy, PartialEq, Eq, Drop)]
pub struct VolumeShape {
    /// In bytes.
    pub size: u64,
    /// In bytes.
    pub block_size: u64,
    /// The group that made the volume.
    pub group: u64,
    pub kind: VolumeKind,
}

impl VolumeShape {
    /// The shape of a plain volume.
    pub fn of(volume: &PlainVolume) -> VolumeShape
        ensures { result ≡ shape_of volume.now }
    {
        VolumeShape {
            size: volume.bytes.len() as u64,
            block_size: volume.block_size,
            group: volume.group,
            kind: volume.kind,
        }
    }
}

/// A name, and the shape of what stands there.
#[derive(Drop)]
pub struct NamedShape {
    pub name: Name,
    pub shape: VolumeShape,
}

/// What an index has of a volume.
#[derive(Drop)]
pub struct VolumeEntry {
    pub shape: VolumeShape,
    /// Of a clone the name of its snapshot.
    pub origin: Option<Name>,
}

impl VolumeEntry {
    /// Whether it is a clone of the snapshot of that name.
    pub fn is_clone_of(&self, snapshot: &Name) -> bool
        ensures { result ≡ is_origin snapshot.now self.now.origin }
    {
        match &self.origin {
            Some(origin) => origin.is(snapshot),
            None => false,
        }
    }
}

impl Clone for VolumeEntry {
    ghost is_clone = { λ entry copy. copy ≡ entry };

    fn clone(&self) -> Result<VolumeEntry, AllocError> {
        Ok(VolumeEntry {
            shape: self.shape,
            origin: self.origin.clone()?,
        })
    }
}
