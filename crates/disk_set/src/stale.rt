//! Disks that missed transaction groups, and so lack blocks that were born in them.
ghost use Rattle.std.specs.Prelude.{◌≡◌, ◌++◌, Some, OnOk};
ghost use Rattle.disk_set.specs.Outs.{is_in, stale_from};

use crate::set::DiskSet;
use model_disk::Disk;
use std::alloc::AllocError;

/// The transaction groups from this one to that one, both among them.
#[derive(Debug, Clone, Copy, PartialEq, Eq, Drop)]
pub struct GroupSpan {
    pub from: u64,
    pub to: u64,
}

impl GroupSpan {
    /// Whether the group is one of them.
    pub fn has(self, group: u64) -> bool
        ensures { result ≡ is_in (Some self) group }
    {
        self.from <= group && group <= self.to
    }
}

impl<D: Disk + Drop> DiskSet<D> {
    /// Of each disk, from the first on, the groups that it missed, if any: from then on it may lack blocks that were born in them.
    /// Disks behind the last one missed none. It takes the place of what was said before.
    pub fn mark_stale(&mut self, stale: Vec<Option<GroupSpan>>)
        ensures { self.new ≡ record self.old {
          spans = record self.old.spans { stale = stale.items };
        } }
    {
        self.stale = stale;
    }

    /// Adds the disks that missed the group in which a block was born.
    pub fn add_stale(&self, birth: u64, absent: &mut Vec<usize>) -> Result<(), AllocError>
        ensures { OnOk result (absent.new.items
            ≡ absent.old.items ++ stale_from 0 self.now.spans.stale birth) }
    {
        for (disk, span) in self.stale.iter().enumerate() {
            if is_missed(*span, birth) {
                absent.push(disk)?;
            }
        }
        Ok(())
    }
}

/// Whether the group is one of these.
fn is_missed(span: Option<GroupSpan>, group: u64) -> bool
    ensures { result ≡ is_in span group }
{
    match span {
        Some(groups) => groups.has(group),
        None => false,
    }
}
