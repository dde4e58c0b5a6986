//! Tests of the lines of schedules and their texts, and of schedules of which threads run a part.
#![tactic(auto)]

#[cfg(test)]
mod schedule_words;
#[cfg(test)]
mod schedules;
