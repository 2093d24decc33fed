//! The command that words ask for, looked up in the table of the commands.
ghost use Rattle.std.specs.Prelude.{◌≡◌, IfSome, bytes_eq, map};
ghost use Rattle.sg_words.specs.Command.{IsSized, asked_behind, asked_in, command_in, commands as all_words};
ghost use Rattle.sg_words.specs.inside.Table.{asked_by, behind_of, words_of};

use crate::command::{Command, commands};
use crate::sample::sample_of;
use crate::service::service_of;
use crate::table::{Form, Pair, Takes};
use sg_plan::{Items, Word};

/// The command that two words ask for.
fn asked_by(pair: Pair, first: &Word, second: &Word) -> Option<Command>
    ensures { result ≡ asked_by pair first.now second.now }
{
    match pair {
        Pair::Service => service_of(first.bytes(), second.bytes()).map(Command::Serve),
        Pair::Sample => sample_of(first.bytes(), second.bytes()).map(Command::Sample),
    }
}

/// The command that the words behind a name ask for.
fn asked_behind(takes: &Takes, words: &[Word]) -> Option<Command>
    ensures { result ≡ asked_behind (behind_of takes.now) words.now }
{
    match takes {
        Takes::Nothing(command) => words.is_empty().then_some(*command),
        Takes::Two(_, _, pair) => match words {
            [first, second] => asked_by(*pair, first, second),
            _ => None,
        },
    }
}

/// The form has this name.
fn has_name(form: &Form, name: &Word) -> bool
    ensures { result ≡ bytes_eq name.now form.now.name.now }
{
    name.bytes() == form.name.as_bytes()
}

/// The command that a name and the words behind it ask for, by the first of these forms that has the name.
fn asked_in(forms: &[Form], name: &Word, words: &[Word]) -> Option<Command>
    ensures { result ≡ asked_in (map words_of forms.now) name.now words.now }
{
    for form in forms {
        if has_name(form, name) {
            return asked_behind(&form.takes, words);
        }
    }
    None
}

/// The command that a name and the words behind it ask for.
fn named(name: &Word, words: &[Word]) -> Option<Command>
    ensures is { result ≡ asked_in all_words name.now words.now }
    ensures sized { IfSome result IsSized }
{
    asked_in(&commands(), name, words)
}

/// The command that the words ask for: None where they are no command's.
pub fn command_of(words: &Items<Word>) -> Option<Command>
    ensures is { result ≡ command_in words.now }
    ensures sized { IfSome result IsSized }
{
    match words.as_slice() {
        [name, rest @ ..] => named(name, rest),
        [] => None,
    }
}
