//! Tests of trees of blocks, dnodes by number, and the objects of a set. They stand together, so that what they reach is proved
//! once with them. The cases stand in tables, each a line of calls beside what comes of them.
#![tactic(auto)]

#[cfg(test)]
mod lines;
#[cfg(test)]
mod nodes;
#[cfg(test)]
mod objects;
#[cfg(test)]
mod set_cases;
#[cfg(test)]
mod sets;
#[cfg(test)]
mod stores;
#[cfg(test)]
mod trees;
