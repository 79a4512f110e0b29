//! What the words of the command line ask for.
use crate::shows::Shows;
use clap::{Arg, ArgAction, Command, Error};
use std::alloc::Global;

/// What the program is called.
pub(crate) const PROGRAM: &str = "routelab";

/// What `--version` says behind that.
const VERSION: &str = "0.1.0";

/// What the words ask for.
#[derive(Clone, Copy, Debug)]
pub(crate) struct Asked<'a> {
    /// What is shown.
    pub(crate) shows: Shows,
    /// The file to which the tree goes at the end, as a graph, if any.
    pub(crate) graph: Option<&'a str>,
    /// The one to which it goes as a drawing, if any.
    pub(crate) svg: Option<&'a str>,
    /// The file that is read, or else standard input.
    pub(crate) file: Option<&'a str>,
}

/// The options, and the file. Those for help and for the version are clap's own.
fn command<'a>(alloc: Global) -> Result<Command<'a>, Error> {
    let quiet = Arg::new(alloc, "quiet")
        .long("quiet")
        .short('q')
        .action(ArgAction::SetTrue)
        .help("Leave out lines and the answers that are only `ok`");
    let no_echo = Arg::new(alloc, "no-echo")
        .long("no-echo")
        .action(ArgAction::SetTrue)
        .help("Leave out lines");
    let graph = Arg::new(alloc, "dot").long("dot").value_name("GRAPH").help(
        "Write the radix tree into this file for Graphviz, as it is at the end",
    );
    let svg = Arg::new(alloc, "svg")
        .long("svg")
        .value_name("DRAWING")
        .help("Draw the radix tree into this file, as it is at the end");
    let file = Arg::new(alloc, "FILE").help("The script; standard input where none is named");
    let command = Command::new(alloc, PROGRAM)
        .version(VERSION)
        .about("Tells in words what becomes of each line of a script of routing-socket commands")
        .arg(quiet)?
        .arg(no_echo)?
        .arg(graph)?
        .arg(svg)?
        .arg(file)?;
    Ok(command)
}

/// What these words ask for. `Err` tells help, the version, what is wrong with them, or that there is no memory for
/// them.
pub(crate) fn asked_by<'a>(alloc: Global, words: &'a [String]) -> Result<Asked<'a>, Error> {
    let matches = command(alloc)?.try_get_matches_from(words)?;
    let quiet = matches.get_flag("quiet");
    Ok(Asked {
        shows: Shows {
            echo: !quiet && !matches.get_flag("no-echo"),
            done: !quiet,
        },
        graph: matches.get_str("dot"),
        svg: matches.get_str("svg"),
        file: matches.get_str("FILE"),
    })
}
