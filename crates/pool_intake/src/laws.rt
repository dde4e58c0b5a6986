//! Laws of what an intake follows: functions with no code, whose contracts are proved of the definitions.
ghost use Rattle.std.specs.Prelude.{◌≡◌};
ghost use Rattle.pool_model.specs.View.{View};
ghost use Rattle.pool_model.specs.Flow.{flow_of};
ghost use Rattle.pool_intake.specs.declared.intake.Intake.{Intake};
ghost use Rattle.pool_intake.specs.Follows.{Follows};
ghost use Rattle.pool_intake.specs.Rest.{NowIsCommitted};

/// An intake follows each view that differs only in disks, and in how far the group that is synced is.
pub fn views_are_followed_by_their_groups()
    ensures { (intake : Intake) (v w : View) → Follows intake v → flow_of w ≡ flow_of v
        → w.pools ≡ v.pools → w.first ≡ v.first → Follows intake w }
{}

/// Where all that was accepted is committed, NOW is the committed pool.
pub fn now_is_committed()
    ensures { NowIsCommitted }
{}
