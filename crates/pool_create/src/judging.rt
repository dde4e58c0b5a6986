//! What the replies to the first steps come to.
ghost use Rattle.std.specs.Prelude.{◌≡◌, ◌↔◌, length, IsTrue};
ghost use Rattle.std.specs.List.{list_any};
ghost use Rattle.pool_create.specs.FirstGroup.{cause_in, says_no_memory, says_no_space};
ghost use Rattle.pool_model.specs.Groups.{commits};

use block_store::VdevShape;
use pool_open::{Refusal, Reply};

/// How many groups were committed.
pub(crate) fn count_commits(replies: &[Reply]) -> usize
    ensures { result ≡ length (commits replies.now) }
{
    let mut count = 0;
    for i in 0..replies.len() {
        if matches!(&replies[i], Reply::Committed(_)) {
            count += 1;
        }
    }
    count
}

/// Whether the reply says that there is no room.
fn says_no_space(reply: &Reply) -> bool
    ensures { result ≡ says_no_space reply.now }
{
    matches!(reply, Reply::Refused(pool_model::Refusal::NoSpace))
}

/// Whether the reply says that memory ran out.
fn says_no_memory(reply: &Reply) -> bool
    ensures { result ≡ says_no_memory reply.now }
{
    matches!(reply, Reply::Refused(pool_model::Refusal::NoMemory))
}

/// Whether one of the replies says that there is no room.
fn lacks_space(replies: &[Reply]) -> bool
    ensures { result ≡ list_any says_no_space replies.now }
{
    replies.iter().any(|reply| says_no_space(reply))
}

/// Whether one of them says that memory ran out.
fn lacks_memory(replies: &[Reply]) -> bool
    ensures { result ≡ list_any says_no_memory replies.now }
{
    replies.iter().any(|reply| says_no_memory(reply))
}

/// Why the first group isn't committed: for lack of room, where a reply says so; since disks failed, where one is out; and else for
/// lack of memory.
pub(crate) fn cause_of(replies: &[Reply], is_whole: bool) -> Refusal
    ensures { result ≡ cause_in replies.now is_whole }
{
    if lacks_space(replies) {
        return Refusal::NoSpace;
    }
    if is_whole || lacks_memory(replies) {
        return Refusal::NoMemory;
    }
    Refusal::DiskFault
}

/// Whether two vdevs are divided alike.
fn is_same_shape(one: VdevShape, other: VdevShape) -> bool
    ensures { IsTrue result ↔ (one ≡ other) }
{
    one.vdev.first == other.vdev.first
        && one.vdev.geometry == other.vdev.geometry
        && one.child_sectors == other.child_sectors
        && one.metaslab_shift == other.metaslab_shift
        && one.meta_slabs == other.meta_slabs
}

/// Whether all are.
pub(crate) fn are_same_shapes(one: &[VdevShape], other: &[VdevShape]) -> bool
    ensures { IsTrue result ↔ (one.now ≡ other.now) }
{
    if one.len() != other.len() {
        return false;
    }
    for i in 0..one.len() {
        if !is_same_shape(one[i], other[i]) {
            return false;
        }
    }
    true
}
