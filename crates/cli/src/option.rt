//! The kinds of options.
use clap::{Arg, ArgAction};
use std::alloc::Global;

// An option that is given or not.
pub(crate) fn flag<'a>(heap: Global, name: &'a str, help: &'a str) -> Arg<'a> {
    Arg::new(heap, name)
        .long(name)
        .action(ArgAction::SetTrue)
        .help(help)
}

// An option with a value, of which the help speaks by a name.
pub(crate) fn valued<'a>(heap: Global, name: &'a str, value: &'a str, help: &'a str) -> Arg<'a> {
    Arg::new(heap, name).long(name).value_name(value).help(help)
}

// An option with a number. One below 0 is a value too, so that it is told that it is out of range.
pub(crate) fn number<'a>(heap: Global, name: &'a str, value: &'a str, help: &'a str) -> Arg<'a> {
    valued(heap, name, value, help).allow_negative_numbers(true)
}

// A file that has to be named.
pub(crate) fn file<'a>(heap: Global, name: &'a str, value: &'a str, help: &'a str) -> Arg<'a> {
    Arg::new(heap, name)
        .value_name(value)
        .required(true)
        .help(help)
}
