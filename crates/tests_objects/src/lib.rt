//! Tests of tables, records and lists in objects of a set, of space maps there, and of the datasets that groups change. One driver takes a line of calls and gives a
//! line of text; the cases stand in tables of lines.
#![tactic(auto)]

#[cfg(test)]
mod cases;
#[cfg(test)]
mod datasets;
#[cfg(test)]
mod followed_maps;
#[cfg(test)]
mod forms;
#[cfg(test)]
mod lines;
#[cfg(test)]
mod objects;
#[cfg(test)]
mod samples;
#[cfg(test)]
mod texts;
