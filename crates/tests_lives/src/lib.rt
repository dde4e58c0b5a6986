//! A life of a pool, lived: by what the calls ensured it is one. And which groups disks lack that are away in one.
#![tactic(auto)]

#[cfg(test)]
mod away;
#[cfg(test)]
mod lived;
#[cfg(test)]
mod scrubbed;
#[cfg(test)]
mod spoilt;
