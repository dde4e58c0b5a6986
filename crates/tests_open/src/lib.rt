//! Tests of pools that outlive the program that made them: made on disks, dropped, and opened again. The cases stand in tables,
//! each a line of calls, or of what became of files, beside what comes of it.
#![tactic(auto)]

#[cfg(test)]
mod acts;
#[cfg(test)]
mod cases;
#[cfg(test)]
mod configured;
#[cfg(test)]
mod files;
#[cfg(test)]
mod lines;
#[cfg(test)]
mod pools;
#[cfg(test)]
mod roots;
#[cfg(test)]
mod shelves;
