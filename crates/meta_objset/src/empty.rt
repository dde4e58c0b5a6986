//! The meta object set of a pool that is still to be made.
use block_pointer::BlockPtr;
use dnode::{ObjectNode, ObjectSet, ObjectSetKind};

/// A meta object set with no object.
pub const EMPTY: ObjectSet = ObjectSet {
    dnodes: ObjectNode {
        object_type: 10,
        data_sectors: 32,
        highest: 0,
        pointer: BlockPtr::Hole,
    },
    kind: ObjectSetKind::Meta,
    objects: 1,
};
