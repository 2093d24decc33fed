//! The forms of an ask, by their names.
ghost use Rattle.std.specs.Prelude.{◌≡◌, bytes_eq};
ghost use Rattle.serde_json.specs.View.{view};
ghost use Rattle.sg_asks.specs.Asks.{form_in, form_named};

use serde_json::Value;

/// The form of an ask.
#[derive(Clone, Copy, Debug, PartialEq, Eq)]
pub(crate) enum Form {
    Scan,
    Spoil,
    Void,
    Audit,
    Close,
    Draw,
    Claim,
    Receipt,
    Totals,
}

/// The texts are the same.
fn is_word(text: &[u8], word: &[u8]) -> bool
    ensures { result ≡ bytes_eq text.now word.now }
{
    text == word
}

/// The form of that name.
#[tactic(auto, unfolding(crate::specs::Asks::form_named))]
fn form_named(name: &[u8]) -> Option<Form>
    ensures { result ≡ form_named name.now }
{
    if is_word(name, b"scan") {
        return Some(Form::Scan);
    }
    if is_word(name, b"spoil") {
        return Some(Form::Spoil);
    }
    if is_word(name, b"void") {
        return Some(Form::Void);
    }
    if is_word(name, b"audit") {
        return Some(Form::Audit);
    }
    if is_word(name, b"close") {
        return Some(Form::Close);
    }
    if is_word(name, b"draw") {
        return Some(Form::Draw);
    }
    if is_word(name, b"claim") {
        return Some(Form::Claim);
    }
    if is_word(name, b"receipt") {
        return Some(Form::Receipt);
    }
    if is_word(name, b"totals") {
        return Some(Form::Totals);
    }
    None
}

/// The form that the object's member `ask` names.
#[tactic(auto, unfolding(crate::specs::Asks::form_in))]
pub(crate) fn form_of(value: &Value) -> Option<Form>
    ensures { result ≡ form_in (view value.now) }
{
    let name = value.get("ask")?.as_str()?;
    form_named(name.as_bytes())
}
