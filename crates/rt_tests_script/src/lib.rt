//! Tests of scripts and of files, by what is public of rt_script. The library itself is empty.
#![tactic(auto)]

#[cfg(test)]
mod accepting;
#[cfg(test)]
mod arriving;
#[cfg(test)]
mod begins;
#[cfg(test)]
mod calls;
#[cfg(test)]
mod checks;
#[cfg(test)]
mod commands;
#[cfg(test)]
mod cursors;
#[cfg(test)]
mod early;
#[cfg(test)]
mod editor;
#[cfg(test)]
mod embedding;
#[cfg(test)]
mod exchange;
#[cfg(test)]
mod expressions;
#[cfg(test)]
mod files;
#[cfg(test)]
mod following;
#[cfg(test)]
mod found;
#[cfg(test)]
mod fronts;
#[cfg(test)]
mod limit_borders;
#[cfg(test)]
mod limits;
#[cfg(test)]
mod line_sites;
#[cfg(test)]
mod lines;
#[cfg(test)]
mod logs;
#[cfg(test)]
mod many;
#[cfg(test)]
mod marks;
#[cfg(test)]
mod options;
#[cfg(test)]
mod peers;
#[cfg(test)]
mod refused;
#[cfg(test)]
mod replacements;
#[cfg(test)]
mod replies;
#[cfg(test)]
mod samples;
#[cfg(test)]
mod searches;
#[cfg(test)]
mod seen;
#[cfg(test)]
mod sites;
#[cfg(test)]
mod sparing;
#[cfg(test)]
mod spent;
#[cfg(test)]
mod stops;
#[cfg(test)]
mod tags;
#[cfg(test)]
mod telling;
#[cfg(test)]
mod texts;
#[cfg(test)]
mod undoing;
#[cfg(test)]
mod undoing_sites;
#[cfg(test)]
mod values;
#[cfg(test)]
mod versions;
#[cfg(test)]
mod widgets;
