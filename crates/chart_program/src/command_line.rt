// The command line: a file to chart, or none.
use clap::{Arg, ArgAction, Command};
use std::alloc::{AllocError, Global};

const ABOUT: &str =
    "Charts weekly wheat protein monitoring: a line for each week, with the limits it violates.";

const STATUSES: &str =
    "Without FILE it is a filter, from standard input to standard output. A refused text
prints one line: \"refused\", its number and the text line. The status is 0 then too,
and 1 where reading or writing failed.

With FILE it prints the same, and the status is
  0  charted
  1  refused; standard error says why
  2  the command line is wrong
  3  the file could not be read, or the output not written";

pub(crate) fn grain_chart<'a>(alloc: Global) -> Result<Command<'a>, AllocError> {
    let file = Arg::new(alloc, "file")
        .value_name("FILE")
        .action(ArgAction::Set)
        .help("the monitoring file; - is standard input");
    Command::new(alloc, crate::NAME)
        .version(crate::VERSION)
        .about(ABOUT)
        .after_help(STATUSES)
        .arg(file)
}
