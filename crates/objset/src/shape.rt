//! Objects by their shapes.
use dnode::Dnode;

/// What an object is, beside its data.
#[derive(Clone, Copy, PartialEq, Eq)]
pub struct ObjectShape {
    /// The object's type, above 0.
    pub object_type: u8,
    /// The size of a data block in sectors of 512 bytes: from 1 to 256.
    pub data_sectors: u32,
    /// The highest block id. What is behind it reads as holes.
    pub highest: u64,
}

impl ObjectShape {
    ghost use Rattle.std.specs.Prelude.{◌≡◌};
    ghost use Rattle.objset.specs.Shapes.{shape_of_dnode};

    /// The shape of the object that a dnode is in use for.
    pub(crate) fn of_dnode(dnode: &Dnode) -> Option<ObjectShape>
        ensures { result ≡ shape_of_dnode dnode.now }
    {
        match dnode {
            Dnode::Free => None,
            Dnode::Object(node) => Some(ObjectShape {
                object_type: node.object_type,
                data_sectors: node.data_sectors,
                highest: node.highest,
            }),
        }
    }
}
