//! Laws of disks, as functions with no body: what each ensures follows from the definitions alone.
ghost use Rattle.model_disk.specs.Laws.{WrittenBytesStand, OtherBytesStay, HonestReadsGive, PartsAreHonest, PartsOfOneAreHonest, FlushedBytesStay, UnwrittenDisksStay, WritesAddImages};
ghost use Rattle.model_disk.specs.RunLaws.{UntouchedBytesStay, SettledBytesStay, FailuresAreSeen, FlushesSettle, IsHeld, CleanIsUntorn, SettledBytesAreHeld, HeldIsOldOrWritten, MomentsAreOfTheRun, CrashesAreAtMoments, MakesIsKnown};

/// What was written stands.
pub fn written_bytes_stand()
    ensures { WrittenBytesStand }
{}

/// A call changes no byte but those of a write's range on its disk.
pub fn other_bytes_stay()
    ensures { OtherBytesStay }
{}

/// An honest read gives what stands.
pub fn honest_reads_give()
    ensures { HonestReadsGive }
{}

/// Each part of an honest run is honest.
pub fn parts_are_honest()
    ensures all { PartsAreHonest }
    ensures one { PartsOfOneAreHonest }
{}

/// A flush that succeeded leaves what a read gives, as long as it isn't written again.
pub fn flushed_bytes_stay()
    ensures { FlushedBytesStay }
{}

/// A disk that was never written stays as it was at first.
pub fn unwritten_disks_stay()
    ensures { UnwrittenDisksStay }
{}

/// A crash while a write runs leaves no more than one after it.
pub fn writes_add_images()
    ensures { WritesAddImages }
{}

/// A run of calls changes no byte that none of its writes has in its range; nor does a crash at any moment of it, on a disk that
/// was settled as the run began: on which nothing was written since the last flush.
pub fn untouched_bytes_stay()
    ensures now { UntouchedBytesStay }
    ensures after_a_crash { SettledBytesStay }
{}

/// A call that failed in a part of a run failed in the run.
pub fn failures_are_seen()
    ensures { FailuresAreSeen }
{}

/// A disk is settled after a flush that succeeded, until it is written again.
pub fn flushes_settle()
    ensures { FlushesSettle }
{}

/// What stood at a place at some moment since the last flush. On a settled disk it is what stands; in a run that began with the
/// disk settled, and writes the place whole or not at all, it is what stood as the run began, or one of its writes.
pub fn held_bytes_are_known()
    ensures held { IsHeld }
    ensures untorn { CleanIsUntorn }
    ensures settled { SettledBytesAreHeld }
    ensures in_a_run { HeldIsOldOrWritten }
{}

/// Each moment of a run has the old calls and the first of the newer ones, and each crash in it comes at such a moment.
pub fn moments_are_of_the_run()
    ensures moments { MomentsAreOfTheRun }
    ensures crashes { CrashesAreAtMoments }
{}

/// Of runs that make only writes which pass a test, whatever the test. For relations on writes, over which no clause can range,
/// proofs/RunLemmas.antt has the same as lemmas.
pub fn runs_write_what_they_may()
    ensures { MakesIsKnown }
{}
