//! What is answered to a line or a request.
ghost use Rattle.std.specs.Prelude.{◌≡◌, IfOk, codes};
ghost use Rattle.serde_json.specs.Written.{compact_text};
ghost use Rattle.sg_asks.specs.Replies.{refusal};
ghost use Rattle.sg_talk.specs.Answers.{IsWritable, answer_status, reply_status, text_of_answer};

use sg_acts::Reply;
use sg_asks::reply_text;
use sg_plan::{NoMemory, Word};
use std::alloc::Global;

/// What is answered to the bytes of a line or of a request's body.
#[derive(Debug, Drop)]
pub enum Answered {
    /// They are no UTF-8, or no JSON of depth at most 127.
    NotJson,
    /// They have none of the nine forms of an ask.
    Shape,
    /// The office's reply to the ask that they are.
    Reply(Reply),
}

/// The status number of a reply, as of HTTP.
fn status_of(reply: &Reply) -> u16
    ensures { result ≡ reply_status reply.now }
{
    match reply {
        Reply::Done(_) => 200,
        Reply::Secret => 403,
        Reply::Ballot => 404,
        Reply::Ref(_) => 409,
        Reply::Phase(_) => 409,
        Reply::Fate(_) => 409,
        Reply::Full => 409,
        Reply::Race(_) => 422,
        Reply::Candidate(_) => 422,
        Reply::Twice(_) => 422,
        Reply::Station(_) => 409,
        Reply::Paper => 422,
        Reply::Draw => 422,
        Reply::Memory => 500,
        Reply::Store => 503,
    }
}

/// A text of its own with these bytes.
fn word_of(alloc: Global, text: &[u8]) -> Result<Word, NoMemory>
    ensures { IfOk result (λ word. word ≡ text.now) }
{
    let mut word = Word::new(alloc);
    word.extend(text)?;
    Ok(word)
}

/// The text of the answer to what is no JSON.
fn not_json_text(alloc: Global) -> Result<Word, NoMemory>
    ensures { IfOk result (λ text. text ≡ compact_text (refusal (codes "json") 400)) }
{
    word_of(alloc, b"{\"error\":\"json\",\"status\":400}")
}

/// The text of the answer to what is no ask.
fn shape_text(alloc: Global) -> Result<Word, NoMemory>
    ensures { IfOk result (λ text. text ≡ compact_text (refusal (codes "shape") 400)) }
{
    word_of(alloc, b"{\"error\":\"shape\",\"status\":400}")
}

impl Answered {
    /// The status number of the answer, as of HTTP: 200 for what is accepted or shown, 400 for what is no ask, 403, 404,
    /// 409 or 422 for what the office refuses, 500 for want of memory, and 503 where the keeper failed.
    pub fn status(&self) -> u16
        ensures { result ≡ answer_status self.now }
    {
        match self {
            Answered::NotJson => 400,
            Answered::Shape => 400,
            Answered::Reply(reply) => status_of(reply),
        }
    }

    /// The text of the answer: compact JSON, without a line feed. Codes stand in the spelling of the version of the
    /// record, 1 or 2.
    pub fn text(&self, alloc: Global, version: u32) -> Result<Word, NoMemory>
        requires { IsWritable version self.now }
        ensures { IfOk result (λ text. text ≡ text_of_answer version self.now) }
    {
        match self {
            Answered::NotJson => not_json_text(alloc),
            Answered::Shape => shape_text(alloc),
            Answered::Reply(reply) => reply_text(alloc, version, reply),
        }
    }
}
