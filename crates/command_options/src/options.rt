ghost use Rattle.std.specs.Prelude.{◌≡◌, ℕ, List, Some, None, IfOk, IfSome, IfNone, Any, codes, map, option_map};
ghost use Rattle.clap.specs.Matches.{first_value, found_of};
ghost use Rattle.clap.specs.Simple.{app_of};
ghost use Rattle.command_options.specs.Apps.{options_app};
ghost use Rattle.command_options.specs.Options.{AreNames, HasOptions};

use crate::words::has_end;
use clap::error::ErrorKind;
use clap::{Arg, ArgAction, ArgMatches, Command};
use std::alloc::Global;
use vm_types::NoMemory;

// A command with an option for each name, which has to be given and takes a value.
fn command_with<'a>(alloc: Global, names: &'a [&'a str]) -> Result<Command<'a>, NoMemory>
    ensures { IfOk result (λ command. app_of command ≡ options_app (map (λ name. name.now) names.now) (codes "options")) }
{
    let mut command = Command::new(alloc, "options")
        .no_binary_name(true)
        .disable_help_flag(true)
        .disable_version_flag(true);
    for name in names {
        let option = Arg::new(alloc, name)
            .long(name)
            .required(true)
            .action(ArgAction::Set);
        command = match command.arg(option) {
            Ok(more) => more,
            Err(_) => return Err(NoMemory),
        };
    }
    Ok(command)
}

// The first value of each name, if each has one.
fn first_values<'a>(
    alloc: Global,
    matches: &ArgMatches<'a>,
    names: &[&str],
) -> Result<Option<Vec<&'a str>>, NoMemory>
    ensures some { IfOk result (λ found. IfSome found (λ values.
        map (λ name. first_value (found_of matches.now) name.now) names.now ≡ map (λ value. Some value.now) values.items)) }
    ensures none { IfOk result (λ found. IfNone found (Any (λ name. first_value (found_of matches.now) name.now ≡ None) names.now)) }
{
    let mut values: Vec<&'a str> = Vec::new(alloc);
    for name in names {
        match matches.get_str(name) {
            Some(value) => match values.push(value) {
                Ok(()) => (),
                Err(_) => return Err(NoMemory),
            },
            None => return Ok(None),
        }
    }
    Ok(Some(values))
}

/// The values of the options with these names, in the order of the names, if the words are just these
/// options: each once and in any order, as `--name value` or as `--name=value`. A value in a word of
/// its own doesn't begin with a hyphen, unless it is one hyphen. None if the words are anything else.
/// Names are never shortened. Fails only if memory runs out.
pub fn option_values<'a>(
    alloc: Global,
    names: &'a [&'a str],
    words: &'a [&'a str],
) -> Result<Option<Vec<&'a str>>, NoMemory>
    requires { AreNames (map (λ name. name.now) names.now) }
    ensures some { IfOk result (λ found. IfSome found (λ values.
        HasOptions (map (λ name. name.now) names.now) (map (λ value. value.now) values.items) (map (λ word. word.now) words.now))) }
    // Values that the words have are what was found, so none were found only if the words have none.
    ensures all { IfOk result (λ found. (values : List (List ℕ))
        → HasOptions (map (λ name. name.now) names.now) values (map (λ word. word.now) words.now)
        → option_map (λ all. map (λ value. value.now) all.items) found ≡ Some values) }
{
    if has_end(words) {
        return Ok(None);
    }
    let command = command_with(alloc, names)?;
    match command.try_get_matches_from(words) {
        Ok(matches) => first_values(alloc, &matches, names),
        Err(error) => match error.kind() {
            ErrorKind::OutOfMemory => Err(NoMemory),
            _ => Ok(None),
        },
    }
}
