//! What is wrong with words that ask for nothing.
use crate::arguments::program;
use crate::command_line::{
    answer, first, form, is_given, listen, readers, says_how_to_read, serves_manifests, value,
};
use crate::program::CommandFault;
use clap::ArgMatches;
use kapi_text::Memory;
use std::alloc::Global;

/// A value that is not of the wanted form.
#[derive(Clone, Copy)]
struct Wrong<'a> {
    value: &'a str,
    /// The argument as help shows it.
    argument: &'static str,
    wanted: &'static str,
}

/// What is wrong with the words of a command line that ask for nothing: lines with their ends, of which the first names
/// the word. The first word is the program's name.
pub fn complaint(alloc: Global, words: &[&str]) -> Result<String, Memory> {
    let program = program(alloc)?;
    match program.try_get_matches_from(words) {
        Ok(matches) => match matches.subcommand() {
            Some((name, words)) => value_complaint(alloc, name, words),
            None => String::from_str(
                alloc,
                "error: no command\n\nFor more information, try 'kapi --help'.\n",
            ),
        },
        Err(error) => format!(in alloc; "{error}"),
    }
}

/// What is wrong with the values of words that are well-formed as a command line.
fn value_complaint(alloc: Global, name: &str, words: &ArgMatches<'_>) -> Result<String, Memory> {
    let complaint = match wrong_value(alloc, words) {
        Some(
            Wrong {
                value,
                argument,
                wanted,
            },
        ) => format!(in alloc; "invalid value '{value}' for '{argument}': {wanted}")?,
        None => String::from_str(alloc, missing_words(name, words))?,
    };
    format!(in alloc; "error: {complaint}\n\nFor more information, try 'kapi {name} --help'.\n")
}

/// What is wrong with words each of which is of the wanted form.
fn missing_words(name: &str, words: &ArgMatches<'_>) -> &'static str {
    match name {
        "audit" if says_how_to_read(words) =>
            "--with, --with-defaults, --namespace and --strict are for --manifests",
        "audit" => "the files are not understood",
        "serve" if serves_manifests(words) =>
            "--load FILE, or --manifests FILE and --with-defaults, and not both",
        "serve" => "--namespace is for --manifests",
        _ =>
            "a verb and a resource are needed, or --questions FILE and neither of them, --namespace nor --name",
    }
}

/// The first value that is not of the wanted form, in the order in which they are read.
fn wrong_value<'a>(alloc: Global, words: &ArgMatches<'a>) -> Option<Wrong<'a>> {
    let (name, argument, wanted) = if answer(words).is_none() {
        (
            "answer",
            "--answer <PORT>",
            "a port is a number from 1 to 65535",
        )
    } else if readers(words).is_none() {
        ("readers", "--readers <N>", "a number from 1 to 16")
    } else if first(words).is_none() {
        (
            "first-revision",
            "--first-revision <N|clock>",
            "'clock', or a number from 0 to 281474976710650",
        )
    } else if form(words).is_none() {
        ("format", "--format <FORM>", "table, markdown or json")
    } else {
        return wrong_listen(alloc, words);
    };
    Some(Wrong {
        value: value(words, name)?,
        argument,
        wanted,
    })
}

/// The first word that is no port with its user.
fn wrong_listen<'a>(alloc: Global, words: &ArgMatches<'a>) -> Option<Wrong<'a>> {
    for word in words.get_strs("LISTEN")? {
        if let Err(CommandFault::Words) = listen(alloc, word, is_given(words, "free-ports")) {
            return Some(Wrong {
                value: *word,
                argument: "PORT=USER[,GROUP..]",
                wanted: "a port from 1 to 65535, a user, and any groups behind commas, as 8001=ann,dev",
            });
        }
    }
    None
}
