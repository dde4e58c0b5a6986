//! How the machine's steps move NOW, and what of it is committed: functions with no code, whose contracts are proved of
//! the definitions.
ghost use Rattle.std.specs.Prelude.{◌≡◌, ◌≤◌, ◌↔◌, ℕ, suc, List, length, Bool, true, false, Some, None};
ghost use Rattle.pool_model.specs.declared.item.Change.{Change as ChangeValue};
ghost use Rattle.pool_model.specs.declared.group.Stage.TheVariants.{Quiescing, Quiesced};
ghost use Rattle.pool_model.specs.declared.item.Action.{Action as ActionValue};
ghost use Rattle.pool_model.specs.declared.item.Item.TheVariants.{Write as WriteItem, Action as ActionItem};
ghost use Rattle.pool_model.specs.declared.item.Write.{Write as WriteValue};
ghost use Rattle.pool_model.specs.declared.step.Step.{Step};
ghost use Rattle.pool_model.specs.declared.step.Reply.{Reply};
ghost use Rattle.pool_model.specs.declared.volume.PlainVolume.{PlainVolume};
ghost use Rattle.pool_model.specs.Pools.{PlainPool, Entry, volume_at, changed, applied};
ghost use Rattle.pool_model.specs.View.{View, Given, Sync, Vdev, started, opened_as, is_syncing, open_group, now_of};
ghost use Rattle.pool_model.specs.Refusals.{may_plan, change_refusal};
ghost use Rattle.volume_rules.specs.GoodChanges.{MakesGoodVolumes, is_good_change};
ghost use Rattle.pool_model.specs.Flow.{flow_of, with_hold, without_hold, with_accepted};
ghost use Rattle.pool_model.specs.Machine.{with_flow, taken, dropped, committed_next, StepOf};
ghost use Rattle.pool_model.specs.Sound.{IsSound};
ghost use Rattle.volume_rules.specs.declared.index.NameIndex.{NameIndex};
ghost use Rattle.volume_rules.specs.Shapes.{HaveSameShapes};
ghost use Rattle.volume_rules.specs.Effects.{PendingTakeEffect};
ghost use Rattle.volume_rules.specs.Sources.{base_name};
ghost use Rattle.volume_rules.specs.Index.{Knows};
ghost use Rattle.volume_rules.specs.NowMoves.{AreGood, GroupsAreBelow, HasGoodNames, IsMadeBy, MovesNow, is_action_taken};
ghost use Rattle.volume_rules.specs.Overlay.{base_of, IsCommitted, StandsThere};

/// A step moves NOW as its definition says: an action that is accepted takes effect, a write that is accepted leaves
/// every shape, and any other step leaves NOW as it was.
pub fn steps_move_now()
    ensures { (v : View) (given : Given) (step : Step) (reply : Reply) (w : View) → IsSound v →
        StepOf v given step reply w → MovesNow v step reply w }
{}

/// The same of each change of a view that a step may make.
pub fn changes_move_now()
    ensures wrote { (v : View) (writer group : ℕ) (write : WriteValue) →
        HaveSameShapes
        (now_of (with_flow v (with_accepted (flow_of v) writer group (WriteItem write))))
        (now_of v) }
    ensures acted { (v : View) (writer : ℕ) (action : ActionValue) →
        now_of (with_flow v (with_accepted (flow_of v) writer (open_group v) (ActionItem action)))
        ≡ changed (open_group v) (now_of v) action.change }
    ensures held { (v : View) (writer group : ℕ) →
        now_of (with_flow v (with_hold (flow_of v) writer group)) ≡ now_of v }
    ensures released { (v : View) (writer : ℕ) →
        now_of (with_flow v (without_hold (flow_of v) writer)) ≡ now_of v }
    ensures closed { (v : View) → IsSound v → v.waiting ≡ None →
        now_of (record v { waiting = Some Quiescing }) ≡ now_of v }
    ensures quiesced { (v : View) → v.waiting ≡ Some Quiescing →
        now_of (record v { waiting = Some Quiesced }) ≡ now_of v }
    ensures taken { (v : View) (sync : Sync) → may_plan v ≡ true → is_syncing sync ≡ true →
        now_of (taken v sync) ≡ now_of v }
    ensures synced { (v : View) (sync : Sync) → is_syncing v.sync ≡ true → is_syncing sync ≡ true →
        now_of (record v { sync = sync }) ≡ now_of v }
    ensures dropped { (v : View) (disk : ℕ) → now_of (dropped v disk) ≡ now_of v }
    ensures committed { (v : View) → is_syncing v.sync ≡ true →
        now_of (committed_next v) ≡ now_of v }
{}

/// An index knows each pool with the same shapes; so it knows NOW after each step but an action that is accepted.
pub fn indexes_follow_now()
    ensures shapes { (index : NameIndex) (pool other : PlainPool) → HaveSameShapes other pool →
        Knows index pool → Knows index other }
    ensures steps { (index : NameIndex) (v : View) (given : Given) (step : Step) (reply : Reply)
        (w : View) → IsSound v → StepOf v given step reply w → is_action_taken step reply ≡ false →
        Knows index (now_of v) → Knows index (now_of w) }
{}

/// No volume of the committed pool was made by a later group, and each has a name that one of its kind may have: so it is
/// at the start, after each group of good changes that takes effect, and after each step where such groups are accepted;
/// and so it is with NOW.
pub fn groups_stay_below()
    ensures start { (vdevs : List Vdev) → GroupsAreBelow (started vdevs) }
    ensures applied { (group : ℕ) (pool : PlainPool) (entry : Entry) → IsMadeBy group pool →
        MakesGoodVolumes entry → IsMadeBy (suc group) (applied (suc group) pool entry) }
    ensures step { (v : View) (given : Given) (step : Step) (reply : Reply) (w : View) →
        AreGood v.ledger → StepOf v given step reply w → GroupsAreBelow v → GroupsAreBelow w }
    ensures now { (v : View) → AreGood v.ledger → GroupsAreBelow v →
        IsMadeBy (open_group v) (now_of v) }
{}

/// Each pending change takes effect: so it is at the start, as a pool is opened, and after each step.
pub fn changes_take_effect()
    ensures start { (vdevs : List Vdev) → PendingTakeEffect (started vdevs) }
    ensures opened { (vdevs : List Vdev) (out : ℕ → Bool) (stale : ℕ → ℕ → Bool) (group : ℕ)
        (pool : PlainPool) → PendingTakeEffect (opened_as vdevs out stale group pool) }
    ensures step { (v : View) (given : Given) (step : Step) (reply : Reply) (w : View) → IsSound v →
        StepOf v given step reply w → PendingTakeEffect v → PendingTakeEffect w }
{}

/// By its creation group a volume of NOW is committed or not; and what is committed has its own bytes under its pending
/// writes. Whatever is of NOW, the committed pool has as many bytes at its base name, where there is one.
pub fn creation_groups_tell_what_is_committed()
    ensures committed { (v : View) (name : List ℕ) (volume : PlainVolume) → GroupsAreBelow v →
        volume_at name (now_of v) ≡ Some volume →
        (volume.group ≤ v.committed) ↔ IsCommitted v name volume }
    ensures bytes { (v : View) (name : List ℕ) (volume base : PlainVolume) → GroupsAreBelow v →
        PendingTakeEffect v → volume_at name (now_of v) ≡ Some volume → volume.group ≤ v.committed →
        volume_at name (v.pools v.committed) ≡ Some base → base_of v name volume ≡ base.bytes }
    ensures stands { (v : View) (name : List ℕ) (volume : PlainVolume) → PendingTakeEffect v →
        volume_at name (now_of v) ≡ Some volume →
        StandsThere (base_name v name) (v.pools v.committed) (length volume.bytes) }
{}

/// A change that is not refused is one that may be made, where the volumes and snapshots that are there have names that
/// may be had.
pub fn changes_that_are_not_refused_are_good()
    ensures { (change : ChangeValue) (pool : PlainPool) → HasGoodNames pool →
        change_refusal change pool ≡ None → is_good_change change ≡ true }
{}
