//! Laws of devices: functions with no code, whose contracts are proved of the definitions.
ghost use Rattle.std.specs.Prelude.{◌≡◌, ◌⊎◌, ℕ, ◌+◌, List, [], ◌++◌, length};
ghost use Rattle.pool_model.specs.Pools.{AreAscending, PlainPool};
ghost use Rattle.volume_device.specs.Contents.{Contents, FitsIn, IsCutOff, IsOverwritten, IsWritten};

use pool_model::{pools_are_maps, pools_ascend_by_name};

/// Two writes of which the second begins where the first ends are one, of the bytes of both: so a long write may be cut in pieces. So it
/// is where the second is cut off: of both a front is written.
pub fn parts_are_one()
    ensures fits { (name : List ℕ) (offset : ℕ) (first second : List ℕ) (c d e : Contents) →
        IsWritten name offset first c d → IsWritten name (offset + length first) second d e →
        ((first ++ second) ≡ []) ⊎ FitsIn c.now name offset (length (first ++ second)) }
    ensures now { (name : List ℕ) (offset : ℕ) (first second : List ℕ) (c d e : Contents) →
        IsWritten name offset first c d → IsWritten name (offset + length first) second d e →
        IsOverwritten name offset (first ++ second) c.now e.now }
    ensures cut_off { (name : List ℕ) (offset : ℕ) (first second : List ℕ) (c d e : Contents) →
        IsWritten name offset first c d →
        (cut : IsCutOff name (offset + length first) second d e) →
        IsOverwritten name offset (first ++ cut.front) c.now e.now }
{
    pools_are_maps();
    pools_ascend_by_name();
}

/// A write keeps the volumes in the order of their names.
pub fn names_still_ascend()
    ensures { (name : List ℕ) (offset : ℕ) (bytes : List ℕ) (before after : PlainPool) →
        AreAscending before.volumes → IsOverwritten name offset bytes before after →
        AreAscending after.volumes }
{
    pools_are_maps();
    pools_ascend_by_name();
}

/// A write of nothing changes nothing.
pub fn nothing_is_overwritten()
    ensures { (name : List ℕ) (offset : ℕ) (pool : PlainPool) →
        IsOverwritten name offset [] pool pool }
{}
