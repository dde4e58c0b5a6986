//! What is known of the disks of a pool of which one is out.
use crate::making::made;
use crate::playing::wrong_replies;
use std::alloc::Global;
use std::cell::Cell;
use std::rc::Rc;
use std::test::Fail;

/// A group is committed while disk 1 is out.
const AWAY: &str = "pool 1 3 8388608 12 2
out 1 -> out
hold 1 -> held 4
create 1 1 v 1024 512 -> receipt 4
release 1 -> released
sync -> committed 4
";

#[test]
fn the_span_of_a_disk_that_is_out_is_known(rt: HostRuntime) -> Result<(), Fail> {
    let alloc: Global = rt.alloc();
    let reads = Rc::new(alloc, Cell::new(0u64))?;
    let mut player = made(alloc, AWAY, &reads)?;
    let wrong = wrong_replies(alloc, &mut player, AWAY)?;
    assert!(rt; wrong.is_empty(), "{wrong}");
    let known = player.core.known_disks(alloc)?;
    let rows = known.spans.rows();
    assert!(rt; rows.len() == 1 && rows[0].from == 4);
    let Some(vdev) = known.config.as_ref().vdevs.first() else {
        return Err(Fail::new("no vdev"));
    };
    assert!(rt; vdev.children.get(1).copied() == Some(rows[0].disk));
    Ok(())
}
