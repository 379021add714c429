//! Tests of calls that no table of cases can spell: real files and streams, trees, views of memory, errors' texts.
#![tactic(auto)]

#[cfg(test)]
mod entries;
#[cfg(test)]
mod errors;
#[cfg(test)]
mod images;
#[cfg(test)]
mod lines;
#[cfg(test)]
mod operations;
#[cfg(test)]
mod raw_names;
#[cfg(test)]
mod snapshots;
#[cfg(test)]
mod streams;
#[cfg(test)]
mod type_records;
