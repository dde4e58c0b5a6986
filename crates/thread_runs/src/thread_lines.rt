//! What threads run.
ghost use Rattle.std.specs.Prelude.{◌≡◌};
ghost use Rattle.thread_runs.specs.Asking.{is_read};

use crate::writer_line::{WriterLine, line_of};
use pool_model::Step;
use std::alloc::{AllocError, Global};

/// Lines of writers, and then what is read once all is committed.
#[derive(Drop)]
pub struct ThreadLines {
    /// How many threads send the lines of writers.
    pub threads: usize,
    pub writers: Vec<WriterLine>,
    /// Steps that read.
    pub reads: Vec<Step>,
}

impl ThreadLines {
    ghost use Rattle.std.specs.Prelude.{◌≡◌, ◌++◌, ◌∷◌, [], ◌&&◌, IfOk, OnOk, length, map, nat_eq, if◌then◌else◌};
    ghost use Rattle.thread_runs.specs.Asking.{is_asked, is_read, may_follow, only_if, step_of};

    pub fn new(alloc: Global, threads: usize) -> ThreadLines
        ensures threads { result.threads ≡ threads }
        ensures empty { (result.writers.items ≡ []) × (result.reads.items ≡ []) }
    {
        ThreadLines {
            threads,
            writers: Vec::new(alloc),
            reads: Vec::new(alloc),
        }
    }

    /// Adds the step of a line, and says so: false where it can't stand there, since it is a writer's behind the first that reads, or neither.
    pub fn push(&mut self, step: Step) -> Result<bool, AllocError>
        ensures threads { self.new.threads ≡ self.old.threads }
        ensures taken { IfOk result (λ is_taken.
            is_taken ≡ may_follow (length self.old.reads.items) step) }
        ensures written { IfOk result (λ is_taken. map step_of self.new.writers.items
            ≡ map step_of self.old.writers.items ++ only_if (is_taken && is_asked step) step) }
        ensures reads { IfOk result (λ is_taken. self.new.reads.items
            ≡ self.old.reads.items ++ only_if (is_taken && is_read step) step) }
    {
        match line_of(step) {
            Ok(line) => self.push_line(line),
            Err(step) => self.push_read(step),
        }
    }

    fn push_line(&mut self, line: WriterLine) -> Result<bool, AllocError>
        ensures threads { self.new.threads ≡ self.old.threads }
        ensures taken { IfOk result (λ is_taken.
            is_taken ≡ nat_eq (length self.old.reads.items) 0) }
        ensures written { IfOk result (λ is_taken. self.new.writers.items
            ≡ if is_taken then self.old.writers.items ++ line ∷ [] else self.old.writers.items) }
        ensures reads { OnOk result (self.new.reads.items ≡ self.old.reads.items) }
    {
        if !self.reads.is_empty() {
            return Ok(false);
        }
        self.writers.push(line)?;
        Ok(true)
    }

    fn push_read(&mut self, step: Step) -> Result<bool, AllocError>
        ensures threads { self.new.threads ≡ self.old.threads }
        ensures taken { IfOk result (λ is_taken. is_taken ≡ is_read step) }
        ensures written { OnOk result (self.new.writers.items ≡ self.old.writers.items) }
        ensures reads { IfOk result (λ is_taken. self.new.reads.items
            ≡ self.old.reads.items ++ only_if is_taken step) }
    {
        if !is_read(&step) {
            return Ok(false);
        }
        self.reads.push(step)?;
        Ok(true)
    }
}

fn is_read(step: &Step) -> bool
    ensures { result ≡ is_read step.now }
{
    matches!(step, Step::Read { .. })
}
