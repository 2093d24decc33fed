//! A line of the record, written.
ghost use Rattle.std.specs.Prelude.{◌≡◌, ◌⊎◌, ◌≤◌, ◌++◌, All, length, drop};
ghost use Rattle.sg_forms.specs.Said.{said};
ghost use Rattle.sg_forms.specs.Said.Said.{Race, Style, Ballots, CodeCommit, RowCommit, Seal, Code, Paper, Flags, Places, Total, Row, Dispute};
ghost use Rattle.sg_forms.specs.Spelling.{FitsForm, IsInRange, IsCode, words_of, claim_word, spelling};
ghost use Rattle.sg_plan.specs.Limits.{longest_line};
ghost use Rattle.sg_forms.specs.inside.Writing.{HasRoom, IsWritten};

use crate::line::{CodeLine, Line, RowOpening};
use crate::lists::front;
use crate::parts::Part::{Hex, Number, Text};
use crate::parts::{Part, put_codes, put_numbers, put_parts};
use crate::types::know_line;
use sg_commit::Digest;
use sg_plan::ClaimWord;

/// The word of a dispute's answer.
fn claim_word(word: ClaimWord) -> &'static [u8]
    ensures { result.now ≡ claim_word word }
{
    match word {
        ClaimWord::Posted => b"posted",
        ClaimWord::Unposted => b"unposted",
        ClaimWord::Absent => b"absent",
    }
}

/// `race NAME K W`
fn race(version: u32, name: &[u8], candidates: u32, votes: u32, out: &mut [u8]) -> usize
    requires version { (version ≡ 1) ⊎ (version ≡ 2) }
    requires room { HasRoom (words_of version (Race name.now candidates votes)) out.old }
    ensures { IsWritten (words_of version (Race name.now candidates votes)) out.old out.new result }
{
    put_parts(
        version,
        out,
        &[Text(b"race"), Text(name), Number(candidates), Number(votes)],
    )
}

/// `style NAME R ..`
fn style(version: u32, name: &[u8], races: &[u32], out: &mut [u8]) -> usize
    requires version { (version ≡ 1) ⊎ (version ≡ 2) }
    requires room { HasRoom (words_of version (Style name.now races.now)) out.old }
    ensures { IsWritten (words_of version (Style name.now races.now)) out.old out.new result }
{
    let end = put_parts(version, out, &[Text(b"style"), Text(name)]);
    put_numbers(version, races, out, end)
}

/// `ballots S COUNT`
fn ballots(version: u32, style: u32, count: u32, out: &mut [u8]) -> usize
    requires version { (version ≡ 1) ⊎ (version ≡ 2) }
    requires room { HasRoom (words_of version (Ballots style count)) out.old }
    ensures { IsWritten (words_of version (Ballots style count)) out.old out.new result }
{
    put_parts(
        version,
        out,
        &[Text(b"ballots"), Number(style), Number(count)],
    )
}

/// `code-commit R HEX`
fn code_commit(version: u32, race: u32, digest: &Digest, out: &mut [u8]) -> usize
    requires version { (version ≡ 1) ⊎ (version ≡ 2) }
    requires room { HasRoom (words_of version (CodeCommit race digest.now)) out.old }
    ensures { IsWritten (words_of version (CodeCommit race digest.now)) out.old out.new result }
{
    put_parts(
        version,
        out,
        &[Text(b"code-commit"), Number(race), Hex(&digest.0)],
    )
}

/// `row-commit R I HEX HEX`
fn row_commit<'a>(
    version: u32,
    race: u32,
    instance: u32,
    left: &'a Digest,
    right: &'a Digest,
    out: &mut [u8],
) -> usize
    requires version { (version ≡ 1) ⊎ (version ≡ 2) }
    requires room { HasRoom (words_of version (RowCommit race instance left.now right.now)) out.old }
    ensures { IsWritten (words_of version (RowCommit race instance left.now right.now)) out.old out.new result }
{
    put_parts(
        version,
        out,
        &[
            Text(b"row-commit"),
            Number(race),
            Number(instance),
            Hex(&left.0),
            Hex(&right.0),
        ],
    )
}

/// `seal N HEX`
fn seal(version: u32, number: u32, digest: &Digest, out: &mut [u8]) -> usize
    requires version { (version ≡ 1) ⊎ (version ≡ 2) }
    requires room { HasRoom (words_of version (Seal number digest.now)) out.old }
    ensures { IsWritten (words_of version (Seal number digest.now)) out.old out.new result }
{
    put_parts(
        version,
        out,
        &[Text(b"seal"), Number(number), Hex(&digest.0)],
    )
}

/// `code R C KEY CODE`
fn code(version: u32, line: &CodeLine, out: &mut [u8]) -> usize
    requires version { (version ≡ 1) ⊎ (version ≡ 2) }
    requires code { IsCode version line.now.code }
    requires room { HasRoom (words_of version (Code line.now)) out.old }
    ensures { IsWritten (words_of version (Code line.now)) out.old out.new result }
{
    put_parts(
        version,
        out,
        &[
            Text(b"code"),
            Number(line.race),
            Number(line.column),
            Hex(&line.key.0),
            Part::Code(line.code),
        ],
    )
}

/// `paper R CODE ..`
fn paper(version: u32, race: u32, codes: &[u16], out: &mut [u8]) -> usize
    requires version { (version ≡ 1) ⊎ (version ≡ 2) }
    requires codes { All (IsCode version) codes.now }
    requires room { HasRoom (words_of version (Paper race codes.now)) out.old }
    ensures { IsWritten (words_of version (Paper race codes.now)) out.old out.new result }
{
    let end = put_parts(version, out, &[Text(b"paper"), Number(race)]);
    put_codes(version, codes, out, end)
}

/// `flags R I BITS`
fn flags(version: u32, race: u32, instance: u32, bits: &[u8], out: &mut [u8]) -> usize
    requires version { (version ≡ 1) ⊎ (version ≡ 2) }
    requires room { HasRoom (words_of version (Flags race instance bits.now)) out.old }
    ensures { IsWritten (words_of version (Flags race instance bits.now)) out.old out.new result }
{
    put_parts(
        version,
        out,
        &[Text(b"flags"), Number(race), Number(instance), Text(bits)],
    )
}

/// `places R BITS`
fn places(version: u32, race: u32, bits: &[u8], out: &mut [u8]) -> usize
    requires version { (version ≡ 1) ⊎ (version ≡ 2) }
    requires room { HasRoom (words_of version (Places race bits.now)) out.old }
    ensures { IsWritten (words_of version (Places race bits.now)) out.old out.new result }
{
    put_parts(version, out, &[Text(b"places"), Number(race), Text(bits)])
}

/// `total R J COUNT`
fn total(version: u32, race: u32, candidate: u32, count: u32, out: &mut [u8]) -> usize
    requires version { (version ≡ 1) ⊎ (version ≡ 2) }
    requires room { HasRoom (words_of version (Total race candidate count)) out.old }
    ensures { IsWritten (words_of version (Total race candidate count)) out.old out.new result }
{
    put_parts(
        version,
        out,
        &[
            Text(b"total"),
            Number(race),
            Number(candidate),
            Number(count),
        ],
    )
}

/// `left KEY Q`, `right KEY S` or `both KEY Q KEY S`
fn row(version: u32, opening: &RowOpening, out: &mut [u8]) -> usize
    requires version { (version ≡ 1) ⊎ (version ≡ 2) }
    requires room { HasRoom (words_of version (Row opening.now)) out.old }
    ensures { IsWritten (words_of version (Row opening.now)) out.old out.new result }
{
    match opening {
        RowOpening::Left(left) => put_parts(
            version,
            out,
            &[Text(b"left"), Hex(&left.key.0), Number(left.value)],
        ),
        RowOpening::Right(right) => put_parts(
            version,
            out,
            &[Text(b"right"), Hex(&right.key.0), Number(right.value)],
        ),
        RowOpening::Both(left, right) => put_parts(
            version,
            out,
            &[
                Text(b"both"),
                Hex(&left.key.0),
                Number(left.value),
                Hex(&right.key.0),
                Number(right.value),
            ],
        ),
    }
}

/// `dispute B R CODE WORD`
fn dispute(
    version: u32,
    ballot: u32,
    race: u32,
    code: u16,
    word: ClaimWord,
    out: &mut [u8],
) -> usize
    requires version { (version ≡ 1) ⊎ (version ≡ 2) }
    requires code { IsCode version code }
    requires room { HasRoom (words_of version (Dispute ballot race code word)) out.old }
    ensures { IsWritten (words_of version (Dispute ballot race code word)) out.old out.new result }
{
    put_parts(
        version,
        out,
        &[
            Text(b"dispute"),
            Number(ballot),
            Number(race),
            Part::Code(code),
            Text(claim_word(word)),
        ],
    )
}

/// Writes the words of a line, a space behind each, over the front of `out`, and answers where they end.
fn write_words(version: u32, line: &Line, out: &mut [u8]) -> usize
    requires version { (version ≡ 1) ⊎ (version ≡ 2) }
    requires line { IsInRange version (said line.now) }
    requires room { HasRoom (words_of version (said line.now)) out.old }
    ensures { IsWritten (words_of version (said line.now)) out.old out.new result }
{
    match line {
        Line::Version(number) => put_parts(version, out, &[Text(b"scantegrity2"), Number(*number)]),
        Line::Election(name) => put_parts(version, out, &[Text(b"election"), Text(name)]),
        Line::Instances(number) => put_parts(version, out, &[Text(b"instances"), Number(*number)]),
        Line::Race {
            name,
            candidates,
            votes,
        } => race(version, name, *candidates, *votes, out),
        Line::Cand(name) => put_parts(version, out, &[Text(b"cand"), Text(name)]),
        Line::Style { name, races, count } => style(version, name, front(races, *count), out),
        Line::Ballots { style, count } => ballots(version, *style, *count, out),
        Line::CodeCommit { race, digest } => code_commit(version, *race, digest, out),
        Line::RowCommit {
            race,
            instance,
            left,
            right,
        } => row_commit(version, *race, *instance, left, right, out),
        Line::Seal { number, digest } => seal(version, *number, digest, out),
        Line::Cast(ballot) => put_parts(version, out, &[Text(b"cast"), Number(*ballot)]),
        Line::Spoiled(ballot) => put_parts(version, out, &[Text(b"spoiled"), Number(*ballot)]),
        Line::Audited(ballot) => put_parts(version, out, &[Text(b"audited"), Number(*ballot)]),
        Line::Code(line) => code(version, line, out),
        Line::Over(race) => put_parts(version, out, &[Text(b"over"), Number(*race)]),
        Line::Paper { race, codes, count } => paper(version, *race, front(codes, *count), out),
        Line::Flags {
            race,
            instance,
            bits,
        } => flags(version, *race, *instance, bits, out),
        Line::Places { race, bits } => places(version, *race, bits, out),
        Line::Total {
            race,
            candidate,
            count,
        } => total(version, *race, *candidate, *count, out),
        Line::DrawFull => put_parts(version, out, &[Text(b"draw"), Text(b"full")]),
        Line::DrawPublic { digits } => put_parts(version, out, &[Text(b"draw"), Text(digits)]),
        Line::Row(opening) => row(version, opening, out),
        Line::Dispute {
            ballot,
            race,
            code,
            word,
        } => dispute(version, *ballot, *race, *code, *word, out),
        Line::Voided(ballot) => put_parts(version, out, &[Text(b"voided"), Number(*ballot)]),
    }
}

/// Writes the line's one spelling in a record of the version, with its line feed, over the front of `out`, and answers
/// its length. The rest of `out` stays as it is. Takes no memory.
pub fn write_line(version: u32, line: &Line, out: &mut [u8]) -> usize
    requires version { (version ≡ 1) ⊎ (version ≡ 2) }
    requires line { FitsForm version (said line.now) }
    requires room { longest_line ≤ length out.old }
    ensures len { result ≡ length (spelling version (said line.now)) }
    ensures written { out.new ≡ spelling version (said line.now) ++ drop result out.old }
    ensures short { result ≤ longest_line }
{
    know_line(version, line);
    let end = write_words(version, line, out);
    out[end - 1] = b'\n';
    end
}
