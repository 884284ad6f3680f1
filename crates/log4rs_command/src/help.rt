//! The program's version and help.

/// The version of this port, which `--version` prints.
pub const VERSION: &str = "0.2.0";

/// The text that `--help` prints: the commands and the statuses.
pub const HELP: &str = "\
Logs its standard input, lines LEVEL TARGET MESSAGE.

log4rs-run pattern PATTERN [NAME=LEVEL]...  prints the records by a pattern
log4rs-run file CONFIG                      logs as a JSON or TOML configuration says
log4rs-run file CONFIG --plain LEVEL TARGET logs other lines too, each as a message of LEVEL TARGET
log4rs-run threads N COUNT                  appends COUNT records in each of N threads to a journal
log4rs-run --version                        prints the version
log4rs-run --help                           prints this text

The status is 0 if all went well, 1 if not, and 2 if the run ended early.
";
