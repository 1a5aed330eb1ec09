//! Tests of numbers, sums, names and formats, with values from outside: what no clause says.
#![tactic(auto)]

#[cfg(test)]
mod batch;
#[cfg(test)]
mod block;
#[cfg(test)]
mod bytes;
#[cfg(test)]
mod edit;
#[cfg(test)]
mod ikey;
#[cfg(test)]
mod log;
#[cfg(test)]
mod meta;
#[cfg(test)]
mod names;
#[cfg(test)]
mod sum;
#[cfg(test)]
mod table;
#[cfg(test)]
mod tablew;
#[cfg(test)]
mod text;
#[cfg(test)]
mod tomb;
