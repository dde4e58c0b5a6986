//! What a group destroys of what was there before it, and what it makes that stays.
ghost use Rattle.std.specs.Prelude.{◌≡◌, ℕ, true, fold, IfOk, OnOk};
ghost use Rattle.std.specs.List.{AllByRecursion};
ghost use Rattle.pool_model.specs.Names.{does_make};
ghost use Rattle.pool_model.specs.Pools.{AreAscending, Entry, MayBeDestroyed, PlainPool, all_destroyed, applied, written};
ghost use Rattle.volume_rules.specs.Effects.{TakeEffect};
ghost use Rattle.volume_rules.specs.GoodChanges.{MakesGoodVolumes, is_good_making};
ghost use Rattle.volume_rules.specs.NowMoves.{HasGoodNames};
ghost use Rattle.volume_rules.specs.Parting.{destroyed_by, is_made, made_by, parted_of, with_action, with_destroy};

use pool_model::{Action, Change, Name};
use std::alloc::{AllocError, Global};
use std::marker::Model;

/// The actions of a group, parted. What a group makes and destroys again is in neither list.
#[derive(Drop)]
pub struct PartedActions {
    destroyed: Vec<Name>,
    made: Vec<Action>,
}

impl Model for PartedActions {
    ghost use Rattle.volume_rules.specs.Parting.{Parted};

    ghost Value = { Parted };

    ghost view = { λ p. record { destroyed = p.destroyed.items; made = p.made.items } };
}

/// Parts the actions of a group: a destroy takes away what an action before it makes of that name, or else the name goes to those that are
/// destroyed; any other action is kept.
pub fn part(alloc: Global, actions: &[Action]) -> Result<PartedActions, AllocError>
    ensures { IfOk result (λ parted. parted ≡ parted_of actions.now) }
{
    let mut parted = PartedActions {
        destroyed: Vec::new(alloc),
        made: Vec::new(alloc),
    };
    for action in actions {
        parted.take(alloc, action)?;
    }
    Ok(parted)
}

impl PartedActions {
    /// The names that the group destroys of what was there before it, in order.
    pub fn destroyed(&self) -> &[Name]
        ensures { result.now ≡ self.now.destroyed }
    {
        self.destroyed.as_slice()
    }

    /// The actions whose volumes and snapshots stay, in order: none of them is a destroy.
    pub fn made(&self) -> &[Action]
        ensures { result.now ≡ self.now.made }
    {
        self.made.as_slice()
    }

    fn take(&mut self, alloc: Global, action: &Action) -> Result<(), AllocError>
        ensures { OnOk result (self.new ≡ with_action self.old action.now action.now.change) }
    {
        match &action.change {
            Change::Destroy { name } => self.destroy(alloc, name),
            _ => {
                self.made.push(action.copied(alloc)?)?;
                Ok(())
            }
        }
    }

    fn destroy(&mut self, alloc: Global, name: &Name) -> Result<(), AllocError>
        ensures { OnOk result (self.new ≡ with_destroy self.old name.now) }
    {
        if is_made(self.made.as_slice(), name) {
            self.made.retain(|action| !action.change.does_make(name));
            return Ok(());
        }
        self.destroyed.push(name.copied(alloc)?)?;
        Ok(())
    }
}

/// Whether one of the actions makes something of this name.
fn is_made(actions: &[Action], name: &Name) -> bool
    ensures { result ≡ is_made name.now actions.now }
{
    actions.iter().any(|action| action.change.does_make(name))
}

/// A group whose changes take effect comes to the same where what it destroys of what was there before it goes first, each without snapshots
/// and clones in its turn, and then its writes and the actions whose things stay take effect; none of these is a destroy.
pub fn parted_groups_come_to_the_same()
    ensures same { (group : ℕ) (pool : PlainPool) (entry : Entry) → AreAscending pool.volumes →
        HasGoodNames pool →
        TakeEffect group (fold written pool entry.writes) entry.actions →
        applied group (all_destroyed (destroyed_by entry) pool) (made_by entry)
        ≡ applied group pool entry }
    ensures may { (group : ℕ) (pool : PlainPool) (entry : Entry) → AreAscending pool.volumes →
        HasGoodNames pool →
        TakeEffect group (fold written pool entry.writes) entry.actions →
        MayBeDestroyed (destroyed_by entry) pool }
    ensures good { (entry : Entry) → MakesGoodVolumes entry →
        AllByRecursion (λ a. is_good_making a.change ≡ true) (made_by entry).actions }
{}
