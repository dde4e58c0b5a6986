//! Tests of volumes: their object sets, what a root spells, and the roots after groups. They stand together, so that what they
//! reach is proved once with them. The cases stand in tables, each a line of calls beside what comes of them.
#![tactic(auto)]

#[cfg(test)]
mod cases;
#[cfg(test)]
mod groups;
#[cfg(test)]
mod lines;
#[cfg(test)]
mod pools;
#[cfg(test)]
mod roots;
#[cfg(test)]
mod sets;
#[cfg(test)]
mod stores;
#[cfg(test)]
mod texts;
#[cfg(test)]
mod volumes;
