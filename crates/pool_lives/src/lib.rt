//! Whole lives of a pool: whatever its public calls did, one after another, and wherever they were stopped.
#![tactic(auto)]

ghost use Rattle.pool_lives.specs.Lasting.{CrashHistoriesGoOn, CrashHistoriesKeepTheLastGroup};
ghost use Rattle.pool_lives.specs.Without.{CrashHistoriesOpenWithout};

use model_disk::Disk;
use pool_create::unfailing_opens_claim_once;
use pool_model::headline_of_runs;
use pool_stops::{
    created_pools_are_on_their_disks, created_pools_run_as, disks_may_be_handed_in,
    disks_may_be_handed_on, found_disks_may_be_opened, none_was_out, own_pools_open_again,
    own_pools_open_without, steps_stay_on_their_disks, stopped_exports_lead_to_own_pools,
    stopped_steps_lead_to_own_pools,
};

/// **No life of a pool loses anything that was committed.** A pool is made by `create`. Then `run` takes steps, `export` puts it away or its disks are taken back,
/// and `open` opens them, in any order and going back or not, answered or refused; and each may be stopped at any moment, inside a device call too. What is
/// opened is the pool of the group that was committed or opened last, or of one of which a slot was begun to be written since; where the open goes back,
/// of so many groups less. What is run from there on is a run of the machine, with the headline. And the claim of an open is above those of all before it.
///
/// All disks are there, all their answers are true (in runs it is enough that they tell what was written), no call of `create` or `open` fails, and nothing that a stop tears reads as a slot or a label by chance.
pub fn crash_histories_keep_the_last_group<D: Disk + Drop>()
    ensures { CrashHistoriesKeepTheLastGroup D.Disk }
{
    created_pools_run_as();
    created_pools_are_on_their_disks();
    headline_of_runs();
    none_was_out();
    steps_stay_on_their_disks();
    stopped_steps_lead_to_own_pools();
    stopped_exports_lead_to_own_pools();
    unfailing_opens_claim_once();
    found_disks_may_be_opened::<D>();
    own_pools_open_again::<D>();
    disks_may_be_handed_on::<D>();
}

/// **A pool opens on some of its disks too**, whatever its life was, if that ended with all of them down: an open that doesn't go back is refused for want of
/// memory alone, where no vdev lacks more of its disks than it has parities; and one that is done serves the pool of the group that was committed or opened
/// last, or of one of which a slot was begun to be written since. What is run from there on is told by `run`: reads give the bytes of that pool.
///
/// All answers are true, but for those of runs, which tell; all disks were in use until that open, groups and claims are left, and no call of it fails.
pub fn crash_histories_open_without<D: Disk + Drop>()
    ensures { CrashHistoriesOpenWithout D.Disk }
{
    crash_histories_keep_the_last_group::<D>();
    own_pools_open_without::<D>();
}

/// With whatever happens next it is a life still; and each public call, answered or refused, is something that happens, by what it ensures. It goes on with
/// the disks that a call gives back, with no stop between.
pub fn crash_histories_go_on<D: Disk + Drop>()
    ensures { CrashHistoriesGoOn D.Disk }
{
    disks_may_be_handed_in::<D>();
    disks_may_be_handed_on::<D>();
}
