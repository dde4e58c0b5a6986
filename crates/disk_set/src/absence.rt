//! Disks that are out.
ghost use Rattle.std.specs.Prelude.{◌≡◌, ◌<◌, ◌++◌, length, min, map, nat_lt, if◌then◌else◌, IfOk, OnOk, OnErr};
ghost use Rattle.disk_set.specs.Outs.{in_group, outs_from, IsInUseToo, MissedThese};

use crate::set::DiskSet;
use crate::stale::GroupSpan;
use model_disk::Disk;
use std::alloc::{AllocError, Global};

/// Each disk that is out may lack blocks from that group on, where it is earlier than the plan's.
fn lower(since: &mut Vec<u64>, before: u64, group: u64)
    ensures { since.new.items
        ≡ (if nat_lt group before then map (min group) since.old.items else since.old.items) }
{
    if group < before {
        lower_all(since, group);
    }
}

/// Each is at most that group.
fn lower_all(since: &mut Vec<u64>, group: u64)
    ensures { since.new.items ≡ map (min group) since.old.items }
{
    for disk in 0..since.len() {
        since[disk] = group.min(since[disk]);
    }
}

impl<D: Disk + Drop> DiskSet<D> {
    /// The plan's group is that one. A disk that fails from then on may lack blocks that were born in it or later; where it is
    /// earlier than the one before, those that are out may lack its blocks too.
    pub fn enter(&mut self, group: u64)
        ensures { self.new ≡ record self.old { spans = in_group self.old.spans group } }
    {
        lower(&mut self.since, self.group, group);
        self.group = group;
    }

    /// A disk is in use from then on, with no call on it. It missed these transaction groups, and lacks what was born in them.
    /// Without memory nothing changes.
    pub fn bring_back(&mut self, disk: usize, missed: Option<GroupSpan>) -> Result<(), AllocError>
        requires { disk < length self.old.disks.starts }
        ensures disks { self.new.disks ≡ self.old.disks }
        ensures due { self.new.due ≡ self.old.due }
        ensures out { OnOk result (IsInUseToo self.old.out disk self.new.out) }
        ensures spans { OnOk result (MissedThese self.old.spans disk missed self.new.spans) }
        ensures err { OnErr result (self.new ≡ self.old) }
    {
        if self.stale.len() <= disk {
            self.stale.resize(disk + 1, None)?;
        }
        self.stale[disk] = missed;
        self.out[disk] = false;
        Ok(())
    }

    /// The disks that are out, and those that are named.
    pub fn absent(&self, alloc: Global, missing: &[usize]) -> Result<Vec<usize>, AllocError>
        ensures { IfOk result (λ absent. absent.items ≡ outs_from 0 self.now.out ++ missing.now) }
    {
        let mut absent = Vec::new(alloc);
        for (disk, is_out) in self.out.iter().enumerate() {
            if *is_out {
                absent.push(disk)?;
            }
        }
        absent.extend_from_slice(missing)?;
        Ok(absent)
    }
}
