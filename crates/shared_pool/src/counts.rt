//! What threads count: how many steps of writers they took, and how many calls.
ghost use Rattle.std.specs.Prelude.{◌≡◌, ◌+◌, ◌<◌};

use std::sync::ledger::{Blank, Book, Ledger, Share};

/// The totals of what all threads have counted. They lie under the lock.
#[derive(Drop)]
pub struct Books<L: Ledger, M: Ledger> {
    /// Steps of writers.
    pub steps: Book<L>,
    /// Steps of any kind that were taken, and records that were sealed.
    pub calls: Book<M>,
}

/// What one thread has counted of both.
#[derive(Drop)]
pub struct Shares<L: Ledger, M: Ledger> {
    pub steps: Share<L>,
    pub calls: Share<M>,
    ghost backed: { 0 < steps.parts },
    ghost alike: { calls.parts ≡ steps.parts },
}

impl<L: Ledger, M: Ledger> Books<L, M> {
    /// New books, and the shares of a thread that has every part of them.
    pub fn open(steps: Blank, calls: Blank) -> (Books<L, M>, Shares<L, M>)
        requires steps { (steps.name ≡ L.name) × (steps.parts ≡ L.parts) }
        requires calls { (calls.name ≡ M.name) × (calls.parts ≡ M.parts) }
        requires some { 0 < steps.parts }
        requires alike { calls.parts ≡ steps.parts }
        ensures books { (result.0.steps.total ≡ 0) × (result.0.calls.total ≡ 0) }
        ensures shares { (result.1.steps.amount ≡ 0) × (result.1.calls.amount ≡ 0) }
        ensures parts { result.1.steps.parts ≡ L.parts }
    {
        let (steps, mine) = steps.open::<L>();
        let (calls, also_mine) = calls.open::<M>();
        let books = Books { steps, calls };
        let shares = Shares {
            steps: mine,
            calls: also_mine,
        };
        (books, shares)
    }

    /// Counts one call, which is so many steps of writers.
    pub(crate) fn count(&mut self, shares: &mut Shares<L, M>, steps: u64)
        ensures steps { self.new.steps.total ≡ self.old.steps.total + steps }
        ensures calls { self.new.calls.total ≡ self.old.calls.total + 1 }
        ensures amount { shares.new.steps.amount ≡ shares.old.steps.amount + steps }
        ensures called { shares.new.calls.amount ≡ shares.old.calls.amount + 1 }
        ensures parts { shares.new.steps.parts ≡ shares.old.steps.parts }
    {
        self.steps.add(&mut shares.steps, steps);
        self.calls.add(&mut shares.calls, 1);
    }

    /// Changes nothing, and tells that the shares of all threads together have counted the totals.
    pub(crate) fn audit(&mut self, all: &mut Shares<L, M>)
        requires steps { all.old.steps.parts ≡ L.parts }
        requires calls { all.old.calls.parts ≡ M.parts }
        ensures steps { all.old.steps.amount ≡ self.new.steps.total }
        ensures calls { all.old.calls.amount ≡ self.new.calls.total }
        ensures totals { (self.new.steps.total ≡ self.old.steps.total)
            × (self.new.calls.total ≡ self.old.calls.total) }
        ensures shares { (all.new.steps.amount ≡ all.old.steps.amount)
            × (all.new.calls.amount ≡ all.old.calls.amount)
            × (all.new.steps.parts ≡ all.old.steps.parts) }
    {
        self.steps.audit(&mut all.steps);
        self.calls.audit(&mut all.calls);
    }
}

impl<L: Ledger, M: Ledger> Shares<L, M> {
    /// The shares of a further thread, of one part each, which has counted nothing yet.
    pub fn split_off(&mut self) -> Shares<L, M>
        requires { 1 < self.old.steps.parts }
        ensures parts { result.steps.parts ≡ 1 }
        ensures none { (result.steps.amount ≡ 0) × (result.calls.amount ≡ 0) }
        ensures left { self.new.steps.parts + 1 ≡ self.old.steps.parts }
        ensures steps { self.new.steps.amount ≡ self.old.steps.amount }
        ensures calls { self.new.calls.amount ≡ self.old.calls.amount }
    {
        Shares {
            steps: self.steps.split_off(1, 0),
            calls: self.calls.split_off(1, 0),
        }
    }

    /// Takes over what another thread has counted.
    pub fn merge(&mut self, other: Shares<L, M>)
        ensures parts { self.new.steps.parts ≡ self.old.steps.parts + other.steps.parts }
        ensures steps { self.new.steps.amount ≡ self.old.steps.amount + other.steps.amount }
        ensures calls { self.new.calls.amount ≡ self.old.calls.amount + other.calls.amount }
    {
        let Shares { steps, calls } = other;
        self.steps.merge(steps);
        self.calls.merge(calls);
    }
}
