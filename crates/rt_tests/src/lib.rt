//! Tests of the crates from rt_revert and rt_tree down, and of rt_args, by what is public of them. The library itself
//! is empty.
#![tactic(auto)]

#[cfg(test)]
mod checks;
#[cfg(test)]
mod clock;
#[cfg(test)]
mod command_lines;
#[cfg(test)]
mod edits;
#[cfg(test)]
mod long_text;
#[cfg(test)]
mod looks;
#[cfg(test)]
mod marks;
#[cfg(test)]
mod nodes;
#[cfg(test)]
mod oplog_bounds;
#[cfg(test)]
mod oplog_files;
#[cfg(test)]
mod oplog_logs;
#[cfg(test)]
mod oplog_random;
#[cfg(test)]
mod requests;
#[cfg(test)]
mod rga_every;
#[cfg(test)]
mod rga_make;
#[cfg(test)]
mod rga_many;
#[cfg(test)]
mod rga_orders;
#[cfg(test)]
mod rga_sites;
#[cfg(test)]
mod rows;
#[cfg(test)]
mod spans;
#[cfg(test)]
mod store;
#[cfg(test)]
mod stores;
#[cfg(test)]
mod tags_states;
#[cfg(test)]
mod tags_table;
#[cfg(test)]
mod tags_toggles;
#[cfg(test)]
mod tree;
#[cfg(test)]
mod undo;
#[cfg(test)]
mod undo_planning;
#[cfg(test)]
mod views;
#[cfg(test)]
mod words;
