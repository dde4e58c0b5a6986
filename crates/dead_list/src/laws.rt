//! Laws of datasets in chains: what their operations free, over every list of operations.
ghost use Rattle.std.specs.Prelude.{List};
ghost use Rattle.block_pointer.specs.declared.block.Block.{Block};
ghost use Rattle.dead_list.specs.Datasets.{Pool, AreFreed};
ghost use Rattle.dead_list.specs.Sound.{IsSound, IsEmpty};
ghost use Rattle.dead_list.specs.Operations.{Operation, MayDo, Makes};
ghost use Rattle.dead_list.specs.Reach.{ReachHasEachOnce};
ghost use Rattle.dead_list.specs.Runs.{Step, Run, NoneComesBack, IsFreedForGood};

/// Whoever takes operations one by one keeps that the pool is sound, and frees with each exactly what some
/// dataset reached before it and none does after it, each block once.
pub fn operations_free_what_nothing_reaches()
    ensures sound { (old new : Pool) (operation : Operation) (freed : List Block) → IsSound old
        → MayDo old operation → Makes old operation freed new → IsSound new }
    ensures freed { (old new : Pool) (operation : Operation) (freed : List Block) → IsSound old
        → MayDo old operation → Makes old operation freed new
        → AreFreed old.datasets new.datasets freed }
{}

/// From a pool without datasets on, whatever operations are done, each frees exactly what nothing reaches any more.
pub fn runs_free_what_nothing_reaches()
    ensures sound { (start last : Pool) (steps : List Step) → IsEmpty start → Run start steps last
        → IsSound last }
    ensures freed { (start last new : Pool) (steps : List Step) (operation : Operation)
        (freed : List Block) → IsEmpty start → Run start steps last → MayDo last operation
        → Makes last operation freed new → AreFreed last.datasets new.datasets freed }
{}

/// Over a whole run each block is freed at most once, and none that was freed is reached at its end, nor so at any
/// moment of it, if none that was freed enters a head again.
pub fn freed_blocks_stay_freed()
    ensures { (start last : Pool) (steps : List Step) → IsSound start → Run start steps last
        → NoneComesBack steps → IsFreedForGood steps last }
{}

/// The blocks of all datasets that were born after the snapshot before each are those that some dataset reaches, each once: so a walk looks at
/// a block once, though many datasets share it.
pub fn reach_has_each_block_once()
    ensures { ReachHasEachOnce }
{}
