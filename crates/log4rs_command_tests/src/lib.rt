//! Tests of whole programs: of runs of `log4rs-run` over streams in memory, and of loggers that a real
//! file or a text configures.
#![tactic(auto)]

#[cfg(test)]
mod broken;
#[cfg(test)]
mod changes;
#[cfg(test)]
mod file_runs;
#[cfg(test)]
mod from_file;
#[cfg(test)]
mod from_text;
#[cfg(test)]
mod plain_lines;
#[cfg(test)]
mod refusals;
#[cfg(test)]
mod runs;
#[cfg(test)]
mod world;
