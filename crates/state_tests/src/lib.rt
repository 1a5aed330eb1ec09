//! Tests of disks, tables, versions and states, with values from outside: what no clause says.
#![tactic(auto)]

#[cfg(test)]
mod cache;
#[cfg(test)]
mod current;
#[cfg(test)]
mod directory;
#[cfg(test)]
mod disk;
#[cfg(test)]
mod drill;
#[cfg(test)]
mod manifest;
#[cfg(test)]
mod sst;
#[cfg(test)]
mod version;
#[cfg(test)]
mod walmode;
