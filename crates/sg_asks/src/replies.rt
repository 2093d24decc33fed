//! The text of a reply.
ghost use Rattle.std.specs.Prelude.{◌≡◌, ◌<◌, ◌∷◌, [], All, IfOk};
ghost use Rattle.std.specs.List.{concat};
ghost use Rattle.sg_plan.specs.Codes.{codes_of};
ghost use Rattle.sg_acts.specs.declared.replies.Reply.TheVariants as reply;
ghost use Rattle.sg_asks.specs.Replies.{HasPlainText, HasReplyCodes, fate_word, phase_word, text_of_reply};
ghost use Rattle.sg_forms.specs.Spelling.{claim_word};
ghost use Rattle.sg_asks.specs.inside.Pieces.{audited_pieces, body_pieces, bool_text, claimed_pieces, conflict_pieces, fate_pieces, mark_pieces, phase_pieces, receipt_pieces, ref_pieces, reply_pieces, scanned_pieces, station_pieces, totals_pieces};

use crate::pieces::Piece::{Lists, Number, Numbers, Seen, Text};
use crate::pieces::text_of;
use sg_acts::{Body, FateWord, Phase, Receipt, Reply};
use sg_plan::{ClaimWord, Items, NoMemory, Word};
use std::alloc::Global;

/// The word for a fate.
fn fate_bytes(fate: FateWord) -> &'static [u8]
    ensures { result.now ≡ fate_word fate }
{
    match fate {
        FateWord::Unused => b"unused",
        FateWord::Cast => b"cast",
        FateWord::Spoiled => b"spoiled",
        FateWord::Audited => b"audited",
        FateWord::Voided => b"voided",
    }
}

/// The word for a phase.
fn phase_bytes(phase: Phase) -> &'static [u8]
    ensures { result.now ≡ phase_word phase }
{
    match phase {
        Phase::Voting => b"voting",
        Phase::Closed => b"closed",
        Phase::Drawn => b"drawn",
    }
}

/// The word of a claim's answer.
fn claim_bytes(word: ClaimWord) -> &'static [u8]
    ensures { result.now ≡ claim_word word }
{
    match word {
        ClaimWord::Posted => b"posted",
        ClaimWord::Unposted => b"unposted",
        ClaimWord::Absent => b"absent",
    }
}

/// `true` or `false`.
fn bool_bytes(value: bool) -> &'static [u8]
    ensures { result.now ≡ bool_text value }
{
    if value { b"true" } else { b"false" }
}

/// A receipt's text.
fn receipt(alloc: Global, version: u32, receipt: &Receipt) -> Result<Word, NoMemory>
    requires { All (λ seen. seen.code < codes_of version) receipt.now.codes }
    ensures { IfOk result (λ text. text ≡ concat (receipt_pieces version receipt.now)) }
{
    text_of(
        alloc,
        version,
        &[
            Text(b"{\"ballot\":"),
            Number(receipt.ballot),
            Text(b",\"codes\":"),
            Seen(&receipt.codes),
            Text(b",\"fate\":\""),
            Text(fate_bytes(receipt.fate)),
            Text(b"\",\"over\":"),
            Numbers(&receipt.over),
            Text(b",\"status\":200}"),
        ],
    )
}

/// The text of the answer to a scan: the races with more marks than votes.
fn scanned(alloc: Global, version: u32, over: &Items<u32>) -> Result<Word, NoMemory>
    ensures { IfOk result (λ text. text ≡ concat (scanned_pieces over.now)) }
{
    text_of(
        alloc,
        version,
        &[
            Text(b"{\"over\":"),
            Numbers(over),
            Text(b",\"status\":200}"),
        ],
    )
}

/// The text of the answer to an audit: whether the paper matches.
fn audited(alloc: Global, version: u32, matches: bool) -> Result<Word, NoMemory>
    ensures { IfOk result (λ text. text ≡ concat (audited_pieces matches)) }
{
    text_of(
        alloc,
        version,
        &[
            Text(b"{\"match\":"),
            Text(bool_bytes(matches)),
            Text(b",\"status\":200}"),
        ],
    )
}

/// The text of the answer to a claim: its word.
fn claimed(alloc: Global, version: u32, word: ClaimWord) -> Result<Word, NoMemory>
    ensures { IfOk result (λ text. text ≡ concat (claimed_pieces word)) }
{
    text_of(
        alloc,
        version,
        &[
            Text(b"{\"status\":200,\"word\":\""),
            Text(claim_bytes(word)),
            Text(b"\"}"),
        ],
    )
}

/// The text of the totals.
fn totals_text(alloc: Global, version: u32, totals: &Items<Items<u32>>) -> Result<Word, NoMemory>
    ensures { IfOk result (λ text. text ≡ concat (totals_pieces totals.now)) }
{
    text_of(
        alloc,
        version,
        &[
            Text(b"{\"status\":200,\"totals\":"),
            Lists(totals),
            Text(b"}"),
        ],
    )
}

/// The text of an ask that is accepted.
#[tactic(auto, unfolding(crate::specs::inside::Pieces::body_pieces))]
fn body(alloc: Global, version: u32, body: &Body) -> Result<Word, NoMemory>
    requires { HasReplyCodes version (reply.Done body.now) }
    ensures { IfOk result (λ text. text ≡ concat (body_pieces version body.now)) }
{
    match body {
        Body::Scanned(over) => scanned(alloc, version, over),
        Body::Audited(matches) => audited(alloc, version, *matches),
        Body::Claimed(word) => claimed(alloc, version, *word),
        Body::Receipt(seen) => receipt(alloc, version, seen),
        Body::Totals(totals) => totals_text(alloc, version, totals),
        Body::Spoiled => text_of(alloc, version, &[Text(b"{\"status\":200}")]),
        Body::Voided => text_of(alloc, version, &[Text(b"{\"status\":200}")]),
        Body::Closed => text_of(alloc, version, &[Text(b"{\"status\":200}")]),
        Body::Drawn => text_of(alloc, version, &[Text(b"{\"status\":200}")]),
    }
}

/// The text of a mark that is refused.
fn mark(alloc: Global, version: u32, at: u32, error: &[u8]) -> Result<Word, NoMemory>
    ensures { IfOk result (λ text. text ≡ concat (mark_pieces at error.now)) }
{
    text_of(
        alloc,
        version,
        &[
            Text(b"{\"at\":"),
            Number(at),
            Text(b",\"error\":\""),
            Text(error),
            Text(b"\",\"status\":422}"),
        ],
    )
}

/// The text of a refusal that tells nothing but its word.
fn plain(alloc: Global, version: u32, text: &[u8]) -> Result<Word, NoMemory>
    ensures { IfOk result (λ word. word ≡ concat (text.now ∷ [])) }
{
    text_of(alloc, version, &[Text(text)])
}

/// The text of a refusal that tells another word, behind this front.
fn conflict<'a>(
    alloc: Global,
    version: u32,
    front: &'a [u8],
    word: &'a [u8],
) -> Result<Word, NoMemory>
    ensures { IfOk result (λ text. text ≡ concat (conflict_pieces front.now word.now)) }
{
    text_of(
        alloc,
        version,
        &[Text(front), Text(word), Text(b"\",\"status\":409}")],
    )
}

/// The text of the refusal of a number that was accepted with another act, whose text it tells.
fn ref_taken(alloc: Global, version: u32, kept: &Word) -> Result<Word, NoMemory>
    ensures { IfOk result (λ text. text ≡ concat (ref_pieces kept.now)) }
{
    conflict(
        alloc,
        version,
        b"{\"error\":\"ref\",\"kept\":\"",
        kept.bytes(),
    )
}

/// The text of the refusal of an ask that the phase does not allow, which it tells.
fn other_phase(alloc: Global, version: u32, phase: Phase) -> Result<Word, NoMemory>
    ensures { IfOk result (λ text. text ≡ concat (phase_pieces phase)) }
{
    conflict(
        alloc,
        version,
        b"{\"error\":\"phase\",\"phase\":\"",
        phase_bytes(phase),
    )
}

/// The text of the refusal of an ask that the ballot's fate does not allow, which it tells.
fn other_fate(alloc: Global, version: u32, fate: FateWord) -> Result<Word, NoMemory>
    ensures { IfOk result (λ text. text ≡ concat (fate_pieces fate)) }
{
    conflict(
        alloc,
        version,
        b"{\"error\":\"fate\",\"fate\":\"",
        fate_bytes(fate),
    )
}

/// The text of the refusal of a void by the station whose scan is kept, which it tells.
fn same_station(alloc: Global, version: u32, kept: u32) -> Result<Word, NoMemory>
    ensures { IfOk result (λ text. text ≡ concat (station_pieces kept)) }
{
    text_of(
        alloc,
        version,
        &[
            Text(b"{\"error\":\"station\",\"kept\":"),
            Number(kept),
            Text(b",\"status\":409}"),
        ],
    )
}

/// The text of a reply, from its pieces.
#[tactic(auto, unfolding(crate::specs::inside::Pieces::reply_pieces))]
fn put_together(alloc: Global, version: u32, reply: &Reply) -> Result<Word, NoMemory>
    requires { HasReplyCodes version reply.now }
    ensures { IfOk result (λ text. text ≡ concat (reply_pieces version reply.now)) }
{
    match reply {
        Reply::Done(told) => body(alloc, version, told),
        Reply::Secret => plain(alloc, version, b"{\"error\":\"secret\",\"status\":403}"),
        Reply::Ballot => plain(alloc, version, b"{\"error\":\"ballot\",\"status\":404}"),
        Reply::Ref(kept) => ref_taken(alloc, version, kept),
        Reply::Phase(phase) => other_phase(alloc, version, *phase),
        Reply::Fate(fate) => other_fate(alloc, version, *fate),
        Reply::Full => plain(
            alloc,
            version,
            b"{\"error\":\"full\",\"limit\":10000,\"status\":409}",
        ),
        Reply::Race(at) => mark(alloc, version, *at, b"race"),
        Reply::Candidate(at) => mark(alloc, version, *at, b"candidate"),
        Reply::Twice(at) => mark(alloc, version, *at, b"twice"),
        Reply::Station(kept) => same_station(alloc, version, *kept),
        Reply::Paper => plain(alloc, version, b"{\"error\":\"paper\",\"status\":422}"),
        Reply::Draw => plain(alloc, version, b"{\"error\":\"draw\",\"status\":422}"),
        Reply::Memory => plain(alloc, version, b"{\"error\":\"memory\",\"status\":500}"),
        Reply::Store => plain(alloc, version, b"{\"error\":\"store\",\"status\":503}"),
    }
}

/// The text of a reply: compact JSON, with the members in rising order of their names. Codes stand in the spelling of
/// the version of the record, 1 or 2.
///
/// A refusal has the members `error`, its word, and `status`, the status number of its answer; what else it tells
/// stands beside them. The text of a kept act needs no escape, since it is made of letters, digits, spaces, `:` and `,`.
pub fn reply_text(alloc: Global, version: u32, reply: &Reply) -> Result<Word, NoMemory>
    requires codes { HasReplyCodes version reply.now }
    requires kept { HasPlainText reply.now }
    ensures { IfOk result (λ text. text ≡ text_of_reply version reply.now) }
{
    put_together(alloc, version, reply)
}
