//! Command lines over real files, as a user gives them.
#![tactic(auto)]

#[cfg(test)]
mod sessions;
#[cfg(test)]
mod telling;
