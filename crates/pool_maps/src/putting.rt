//! Changes in the order of their objects' numbers.
ghost use Rattle.std.specs.Prelude.{◌≢◌, ◌<◌, ◌≤◌, All, AllPairs, length, take, slice_index_or, IfOk};
ghost use Rattle.std.specs.Bool.{OnTrue, OnFalse};
ghost use Rattle.objset.specs.declared.changes.ObjectChange.{ObjectChange};
ghost use Rattle.pool_maps.specs.Plans.{IsPutIn};

use objset::ObjectChange;
use std::alloc::AllocError;

/// Puts a change among others, in the order of their numbers. `false`, which changes nothing, where one is of that object already.
pub(crate) fn put_in(
    changes: &mut Vec<ObjectChange>,
    change: ObjectChange,
) -> Result<bool, AllocError>
    requires { AllPairs (λ change later. change.number < later.number) changes.old.items }
    ensures order { IfOk result (λ is_put. OnTrue is_put
        (AllPairs (λ change later. change.number < later.number) changes.new.items)) }
    ensures put { IfOk result (λ is_put. OnTrue is_put
        (IsPutIn changes.old.items change changes.new.items)) }
    ensures there { IfOk result (λ is_put. OnFalse is_put
        (¬ All (λ other. other.number ≢ change.number) changes.old.items)) }
{
    if is_among(changes, change.number) {
        return Ok(false);
    }
    let at = count_below(changes, change.number);
    changes.insert(at, change)?;
    Ok(true)
}

/// Whether one of the changes is of the object.
fn is_among(changes: &[ObjectChange], number: u64) -> bool
    ensures there { OnTrue result (¬ All (λ other. other.number ≢ number) changes.now) }
    ensures none { OnFalse result (All (λ other. other.number ≢ number) changes.now) }
{
    changes.iter().any(|change| change.number == number)
}

/// How many changes stand in front of those of objects with that number or a higher one.
fn count_below(changes: &[ObjectChange], number: u64) -> usize
    ensures within { result ≤ length changes.now }
    ensures before { All (λ change. change.number < number) (take result changes.now) }
    ensures behind { (other : ObjectChange) → result < length changes.now
        → ¬ ((slice_index_or changes.now result other).number < number) }
{
    for (i, change) in changes.iter().enumerate() {
        if change.number >= number {
            return i;
        }
    }
    changes.len()
}
