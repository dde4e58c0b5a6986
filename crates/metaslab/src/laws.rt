//! Laws of space, over every list of steps.
ghost use Rattle.std.specs.Prelude.{ℕ, List, [], ◌∷◌, ◌++◌, ◌≡◌, None};
ghost use Rattle.std.specs.List.{AllByRecursion};
ghost use Rattle.metaslab.specs.Pool.{Pool, Step, IsOpened, MayStep, after, after_all, Run};
ghost use Rattle.metaslab.specs.Pool.{IsOfPlan};
ghost use Rattle.metaslab.specs.Accounted.{next_state, IsAccounted};
ghost use Rattle.space_map.specs.FreeRuns.{FreeRuns, AreFree};
ghost use Rattle.metaslab.specs.Space.{Space};
ghost use Rattle.metaslab.specs.Calls.{AreUnused, IsOf};
ghost use Rattle.metaslab.specs.Unused.{IsUnusedOf};

/// No sector is used twice and none is lost, whatever is planned, dropped, committed, pinned and unpinned.
pub fn space_is_accounted()
    ensures { (pool : Pool) (steps : List Step) → IsOpened pool → Run pool steps
        → IsAccounted (after_all pool steps) }
{}

/// A plan that is dropped leaves all as it was.
pub fn dropped_plans_change_nothing()
    ensures dropped { (pool : Pool) (steps : List Step) → AllByRecursion IsOfPlan steps
        → after (after_all pool steps) Step.Drop ≡ record pool { plan = None } }
    // What is settled before a plan is what the plan would settle: so this too is nothing that a plan sees.
    ensures early { (pool : Pool) (s : ℕ) → next_state (after pool Step.Settle) s ≡ next_state pool s }
{}

/// A run goes on by a step: whoever takes steps one by one can keep that what it has is accounted for.
pub fn steps_follow_runs()
    ensures run { (pool : Pool) (steps : List Step) (step : Step) → Run pool steps
        → MayStep (after_all pool steps) step → Run pool (steps ++ step ∷ []) }
    ensures after { (pool : Pool) (steps : List Step) (step : Step)
        → after_all pool (steps ++ step ∷ []) ≡ after (after_all pool steps) step }
{}

/// What a metaslab leaves unused, as a free set and as a test of each sector, is the same. And a free set that was
/// taken in is what is unused.
pub fn unused_sectors_are_sets()
    ensures set { (space : Space) (free : FreeRuns) → AreFree free
        → AreUnused space free → IsUnusedOf free space }
    ensures only { (space : Space) (free : FreeRuns)
        → IsUnusedOf free space → AreUnused space free }
    ensures loaded { (space : Space) (free : FreeRuns) → AreFree free
        → IsOf space free → IsUnusedOf free space }
{}
