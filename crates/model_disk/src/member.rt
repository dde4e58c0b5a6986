//! A child's disk, or what stands for it while it is absent.
ghost use Rattle.std.specs.Prelude.{◌≡◌, [], Some, None, is_none, replicate, IfSome, IsTrue};
ghost use Rattle.model_disk.specs.Absent.{HaveFailed, IsHonest-failed};
ghost use Rattle.model_disk.specs.Joint.{calls_in};

use crate::{AbsentDisk, Disk, DiskError, HonestDisk};

/// A child's disk, or what stands for it.
#[derive(Drop)]
pub enum Member<D: Disk + Drop> {
    Present(D),
    Absent(AbsentDisk),
}

impl<D: Disk + Drop> Member<D> {
    ghost use Rattle.model_disk.specs.Member.{start_of, calls_of, disk_of};

    /// The disk itself.
    pub fn present(disk: D) -> Member<D>
        ensures disk { disk_of result ≡ Some disk }
        ensures start { start_of D.Disk result ≡ D.start disk }
        ensures calls { calls_of D.Disk result ≡ D.calls disk }
    {
        Member::Present(disk)
    }

    /// What stands for a disk of this many bytes.
    pub fn absent(size: u64) -> Member<D>
        ensures disk { disk_of result ≡ None }
        ensures start { start_of D.Disk result ≡ replicate size 0 }
        ensures calls { calls_of D.Disk result ≡ [] }
    {
        Member::Absent(AbsentDisk::new(size))
    }

    /// Whether there is no disk.
    pub fn is_absent(&self) -> bool
        ensures absent { result ≡ is_none (disk_of self.now) }
        ensures failed { IsTrue result → HaveFailed (calls_of D.Disk self.now) }
    {
        matches!(self, Member::Absent(_))
    }

    /// The disk, where it is there.
    pub fn into_disk(self) -> Option<D>
        ensures disk { result ≡ disk_of self }
        ensures start { IfSome result (λ disk. D.start disk ≡ start_of D.Disk self) }
        ensures calls { IfSome result (λ disk. D.calls disk ≡ calls_of D.Disk self) }
    {
        match self {
            Member::Present(disk) => Some(disk),
            Member::Absent(_) => None,
        }
    }
}

impl<D: Disk + Drop> Disk for Member<D> {
    ghost use Rattle.model_disk.specs.Member.{start_of, calls_of};

    ghost start = { start_of D.Disk };

    ghost calls = { calls_of D.Disk };

    fn size(&self) -> u64 {
        match self {
            Member::Present(disk) => disk.size(),
            Member::Absent(disk) => disk.size(),
        }
    }

    fn read(&mut self, at: u64, buffer: &mut [u8]) -> Result<(), DiskError> {
        match self {
            Member::Present(disk) => disk.read(at, buffer),
            Member::Absent(disk) => disk.read(at, buffer),
        }
    }

    fn write_at(&mut self, at: u64, bytes: &[u8]) -> Result<(), DiskError> {
        match self {
            Member::Present(disk) => disk.write_at(at, bytes),
            Member::Absent(disk) => disk.write_at(at, bytes),
        }
    }

    fn flush(&mut self) -> Result<(), DiskError> {
        match self {
            Member::Present(disk) => disk.flush(),
            Member::Absent(disk) => disk.flush(),
        }
    }

    ghost use Rattle.model_disk.specs.declared.member.Member.TheVariants.{Present, Absent};
    ghost use Rattle.model_disk.specs.Joint.{calls_in};
    ghost use Rattle.model_disk.specs.Within.{IsWithin-failed};

    ghost is_within = { elim [
      | Present disk ↦ D.is_within disk
      | Absent it ↦ IsWithin-failed (replicate it.size 0) (calls_in it.log.calls) it.failed
    ] };
}

impl<D: HonestDisk + Drop> HonestDisk for Member<D> {
    ghost use Rattle.model_disk.specs.declared.member.Member.TheVariants.{Present, Absent};

    ghost is_honest = { elim [
      | Present disk ↦ D.is_honest disk
      | Absent it ↦ IsHonest-failed (replicate it.size 0) (calls_in it.log.calls) it.failed
    ] };
}
