//! Tests of whole commands over disks and outputs in memory, with lines and statuses from outside.
#![tactic(auto)]

#[cfg(test)]
mod best;
#[cfg(test)]
mod check;
#[cfg(test)]
mod drill;
#[cfg(test)]
mod families;
#[cfg(test)]
mod get;
#[cfg(test)]
mod manifest_dump;
#[cfg(test)]
mod run;
#[cfg(test)]
mod scan;
#[cfg(test)]
mod sst;
