//! The line that names the words of all commands.
ghost use Rattle.std.specs.Prelude.{◌≡◌, ◌++◌, IfOk, codes, map, string_bytes};
ghost use Rattle.sg_words.specs.Usage.{report_usage_text, shown_all, shown_behind, shown_more, shown_words, usage_text};
ghost use Rattle.sg_words.specs.inside.Table.{behind_of, words_of};

use crate::command::{commands, reports};
use crate::table::{Form, Takes};
use sg_plan::NoMemory;
use std::alloc::Global;

/// Appends what stands behind a name.
fn push_behind(text: &mut String, takes: &Takes) -> Result<(), NoMemory>
    ensures { IfOk result (λ _. string_bytes text.new ≡ string_bytes text.old ++ shown_behind (behind_of takes.now)) }
{
    match takes {
        Takes::Nothing(_) => {}
        Takes::Two(left, right, _) => {
            let (first, from, to) = (left.name, left.least, left.most);
            let (second, low, high) = (right.name, right.least, right.most);
            write!(text, " {first} {second} ({from} to {to}, {low} to {high})")?;
        }
    }
    Ok(())
}

/// Appends a command's words.
fn push_form(text: &mut String, form: &Form) -> Result<(), NoMemory>
    ensures { IfOk result (λ _. string_bytes text.new ≡ string_bytes text.old ++ shown_words (words_of form.now)) }
{
    text.push_str(form.name)?;
    push_behind(text, &form.takes)
}

/// Appends a bar, and a command's words.
fn push_next(text: &mut String, form: &Form) -> Result<(), NoMemory>
    ensures { IfOk result (λ _. string_bytes text.new ≡ string_bytes text.old ++ codes " | " ++ shown_words (words_of form.now)) }
{
    text.push_str(" | ")?;
    push_form(text, form)
}

/// Appends each command's words, behind a bar.
fn push_more(text: &mut String, forms: &[Form]) -> Result<(), NoMemory>
    ensures { IfOk result (λ _. string_bytes text.new ≡ string_bytes text.old ++ shown_more (map words_of forms.now)) }
{
    for form in forms {
        push_next(text, form)?;
    }
    Ok(())
}

/// The words of these commands, with a bar between two of them.
fn usage_of(alloc: Global, forms: &[Form]) -> Result<String, NoMemory>
    ensures { IfOk result (λ text. string_bytes text ≡ shown_all (map words_of forms.now)) }
{
    let mut text = String::new(alloc);
    if let [first, rest @ ..] = forms {
        push_form(&mut text, first)?;
        push_more(&mut text, rest)?;
    }
    Ok(text)
}

/// The words of all commands in one line, as a user is told them, with the ranges of their numbers.
pub fn usage(alloc: Global) -> Result<String, NoMemory>
    ensures { IfOk result (λ text. string_bytes text ≡ usage_text) }
{
    usage_of(alloc, &commands())
}

/// The words of the commands that report on what they read and open no office, as [`usage`] tells those of all.
pub fn report_usage(alloc: Global) -> Result<String, NoMemory>
    ensures { IfOk result (λ text. string_bytes text ≡ report_usage_text) }
{
    usage_of(alloc, &reports())
}
