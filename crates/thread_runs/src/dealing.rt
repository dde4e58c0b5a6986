//! The lines that each thread sends.
ghost use Rattle.std.specs.Prelude.{◌≡◌, ◌+◌, ◌<◌, ◌++◌, ◌∷◌, [], List, vec_len, IfOk, OnOk};
ghost use Rattle.thread_runs.specs.declared.writer_line.WriterLine.{WriterLine};
ghost use Rattle.thread_runs.specs.Dealing.{AreCast, AreDealing, AreDealt};

use crate::seats::Role;
use crate::writer_line::WriterLine;
use std::alloc::{AllocError, Global};

/// No lines for each of so many threads.
fn empty_stacks(alloc: Global, threads: usize) -> Result<Vec<Vec<WriterLine>>, AllocError>
    ensures len { IfOk result (λ stacks. vec_len stacks ≡ threads) }
    ensures empty { IfOk result (λ stacks. AreDealt stacks.items []) }
{
    let mut stacks = Vec::new(alloc);
    for _ in 0..threads {
        stacks.push(Vec::new(alloc))?;
    }
    Ok(stacks)
}

/// Puts a line on the stack of the thread that sends it.
fn deal(stacks: &mut Vec<Vec<WriterLine>>, line: WriterLine) -> Result<(), AllocError>
    requires { 0 < vec_len stacks.old }
    ensures len { vec_len stacks.new ≡ vec_len stacks.old }
    ensures dealt { OnOk result ((left all : List WriterLine)
        → AreDealing stacks.old.items (left ++ line ∷ []) all
        → AreDealing stacks.new.items left all) }
{
    let thread = line.writer as usize % stacks.len();
    stacks[thread].push(line)?;
    Ok(())
}

/// Lines for each of so many threads, the last one first: those of the writers whose number is the thread's modulo that many.
fn dealt(
    alloc: Global,
    mut lines: Vec<WriterLine>,
    threads: usize,
) -> Result<Vec<Vec<WriterLine>>, AllocError>
    requires { 0 < threads }
    ensures len { IfOk result (λ stacks. vec_len stacks ≡ threads) }
    ensures dealt { IfOk result (λ stacks. AreDealt stacks.items lines.items) }
{
    let mut stacks = empty_stacks(alloc, threads)?;
    while let Some(line) = lines.pop() {
        deal(&mut stacks, line)?;
    }
    Ok(stacks)
}

/// A role for the syncer, for the quiescer and for each of so many threads of writers, the first of these last. Who begins with the last
/// one lets writers go before those who wait for them: where no thread can be made the roles are played in turn.
pub(crate) fn roles_for(
    alloc: Global,
    lines: Vec<WriterLine>,
    threads: usize,
) -> Result<Vec<Role>, AllocError>
    requires { 0 < threads }
    ensures len { IfOk result (λ roles. vec_len roles ≡ threads + 2) }
    ensures cast { IfOk result (λ roles. AreCast threads lines.items roles.items) }
{
    let mut stacks = dealt(alloc, lines, threads)?;
    let mut roles = Vec::new(alloc);
    roles.push(Role::Syncer)?;
    roles.push(Role::Quiescer)?;
    while let Some(stack) = stacks.pop() {
        roles.push(Role::Writers(stack))?;
    }
    Ok(roles)
}
