//! The configuration that a pool keeps, and the one that its root has.
use crate::shelves::TestDisk;
use block_store::BlockStore;
use meta_objset::read_config;
use model_disk::Member;
use objset::read_set;
use pool_create::Core;
use std::alloc::Global;
use std::test::Fail;
use vdev_label::Config;

/// What a configuration says of guids: that of the first vdev, those of its disks, and the sum of all.
type Guids = (u64, [u64; 3], u64);

/// Those of a configuration whose first vdev has three disks.
pub(crate) fn guids(config: &Config) -> Option<Guids> {
    let vdev = config.vdevs.first()?;
    match vdev.children.as_slice() {
        [first, second, third] => Some((vdev.guid, [*first, *second, *third], config.guid_sum())),
        _ => None,
    }
}

/// What the object of the configuration has below the root of a core's committed group.
pub(crate) fn rooted(alloc: Global, core: Core<Member<TestDisk>>) -> Result<Option<Guids>, Fail> {
    let Some(root) = core.last_root() else {
        return Ok(None);
    };
    let shapes = core.shapes(alloc)?;
    let out = core.marks(alloc)?;
    let Ok(mut store) = BlockStore::opened(alloc, core.into_array(), &shapes, &out) else {
        return Ok(None);
    };
    let set = read_set(&mut store, alloc, &root, root.birth, &[])?;
    let config = read_config(&set, &mut store, alloc, root.birth, &[])?;
    Ok(guids(&config))
}
