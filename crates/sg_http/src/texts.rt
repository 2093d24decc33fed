//! The texts of answers.

ghost use Rattle.std.specs.Prelude.{◌≡◌, ◌++◌, None, IfOk, OnOk, decimal};
ghost use Rattle.sg_http.specs.Leads.{word_of};
ghost use Rattle.sg_http.specs.Replies.{allow_text, allowed_by, answer_text, memory_text, reason_of, refused_status, refused_text};

use crate::refusal::{Refusal, Verb};
use itoa::Buffer;
use sg_plan::{NoMemory, Word};
use std::alloc::Global;

/// A method's word.
pub fn verb_word(verb: Verb) -> &'static str
    ensures { result.now ≡ word_of verb }
{
    match verb {
        Verb::Get => "GET",
        Verb::Post => "POST",
    }
}

/// Puts the line that names the route's method behind the text, where there is one.
fn extend_allow(text: &mut Word, allow: Option<Verb>) -> Result<(), NoMemory>
    ensures { OnOk result (text.new ≡ text.old ++ allow_text allow) }
{
    let Some(verb) = allow else {
        return Ok(());
    };
    text.extend(b"Allow: ")?;
    text.extend(verb_word(verb).as_bytes())?;
    text.extend(b"\r\n")?;
    Ok(())
}

/// The reason that stands behind a status number.
#[tactic(auto, unfolding(crate::specs::Replies::reason_of))]
fn reason(status: u16) -> &'static str
    ensures { result.now ≡ reason_of status }
{
    match status {
        200 => "OK",
        400 => "Bad Request",
        403 => "Forbidden",
        404 => "Not Found",
        405 => "Method Not Allowed",
        409 => "Conflict",
        411 => "Length Required",
        413 => "Content Too Large",
        422 => "Unprocessable Content",
        431 => "Request Header Fields Too Large",
        500 => "Internal Server Error",
        503 => "Service Unavailable",
        _ => "",
    }
}

/// Puts the digits of a number behind the text.
fn extend_decimal(text: &mut Word, value: u64) -> Result<(), NoMemory>
    ensures { OnOk result (text.new ≡ text.old ++ decimal value) }
{
    let mut digits = Buffer::new();
    text.extend(digits.format(value).as_bytes())
}

/// The text of an answer.
#[tactic(auto, unfolding(crate::specs::Replies::answer_text))]
pub fn compose(
    alloc: Global,
    status: u16,
    allow: Option<Verb>,
    body: &[u8],
) -> Result<Word, NoMemory>
    ensures { IfOk result (λ text. text ≡ answer_text status allow body.now) }
{
    let mut text = Word::new(alloc);
    text.extend(b"HTTP/1.1 ")?;
    extend_decimal(&mut text, u64::from(status))?;
    text.extend(b" ")?;
    text.extend(reason(status).as_bytes())?;
    text.extend(b"\r\nContent-Type: application/json\r\nContent-Length: ")?;
    extend_decimal(&mut text, body.len() as u64)?;
    text.extend(b"\r\n")?;
    extend_allow(&mut text, allow)?;
    text.extend(b"Connection: close\r\n\r\n")?;
    text.extend(body)?;
    Ok(text)
}

/// The answer for want of memory, which takes none.
pub fn memory_answer() -> &'static [u8]
    ensures { result.now ≡ answer_text 500 None memory_text }
{
    b"HTTP/1.1 500 Internal Server Error\r\nContent-Type: application/json\r\nContent-Length: 31\r\nConnection: close\r\n\r\n{\"error\":\"memory\",\"status\":500}"
}

/// The status number of a refusal.
pub fn refusal_status(fault: Refusal) -> u16
    ensures { result ≡ refused_status fault }
{
    match fault {
        Refusal::Head => 400,
        Refusal::Headers => 431,
        Refusal::Route => 404,
        Refusal::Method(_) => 405,
        Refusal::NoLength => 411,
        Refusal::BadLength => 400,
        Refusal::Size => 413,
        Refusal::Body => 400,
    }
}

/// The body of a refusal.
pub fn refusal_text(fault: Refusal) -> &'static str
    ensures { result.now ≡ refused_text fault }
{
    match fault {
        Refusal::Head => "{\"error\":\"head\",\"status\":400}",
        Refusal::Headers => "{\"error\":\"headers\",\"status\":431}",
        Refusal::Route => "{\"error\":\"route\",\"status\":404}",
        Refusal::Method(_) => "{\"error\":\"method\",\"status\":405}",
        Refusal::NoLength => "{\"error\":\"length\",\"status\":411}",
        Refusal::BadLength => "{\"error\":\"length\",\"status\":400}",
        Refusal::Size => "{\"error\":\"size\",\"status\":413}",
        Refusal::Body => "{\"error\":\"body\",\"status\":400}",
    }
}

/// The method that a refusal allows.
pub fn refusal_allow(fault: Refusal) -> Option<Verb>
    ensures { result ≡ allowed_by fault }
{
    match fault {
        Refusal::Method(verb) => Some(verb),
        _ => None,
    }
}
