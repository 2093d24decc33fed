//! The summary of a sample run, made in memory.
ghost use Rattle.std.specs.Prelude.{◌≡◌, ◌≤◌, ◌++◌, ◌∷◌, [], codes, length, OnOk, IfOk};
ghost use Rattle.sg_lines.specs.Words.{decimal};
ghost use Rattle.sg_report.specs.Report.{total_text, totals_text};
ghost use Rattle.sg_sample.specs.Summary.{line_of_words, number_line};

use sg_check::Total;
use sg_lines::write_decimal;
use sg_plan::{Items, NoMemory, Word};

/// The most digits of a number.
const MOST_DIGITS: usize = 10;

/// Adds a number.
fn add_decimal(out: &mut Word, value: u32) -> Result<(), NoMemory>
    ensures { OnOk result (out.new ≡ out.old ++ decimal value) }
{
    let mut digits = [0; MOST_DIGITS];
    let count = write_decimal(value, &mut digits);
    out.extend(&digits[..count])
}

/// Adds a line of a word and a number.
pub(crate) fn add_number(out: &mut Word, word: &[u8], value: u32) -> Result<(), NoMemory>
    ensures { OnOk result (out.new ≡ out.old ++ number_line word.now value) }
{
    out.extend(word)?;
    out.push(b' ')?;
    add_decimal(out, value)?;
    out.push(b'\n')
}

/// Adds the line of a total.
fn add_total(out: &mut Word, total: &Total) -> Result<(), NoMemory>
    ensures { OnOk result (out.new ≡ out.old ++ total_text total.now) }
{
    out.extend(b"total ")?;
    add_decimal(out, total.race)?;
    out.push(b' ')?;
    add_decimal(out, total.candidate)?;
    out.push(b' ')?;
    add_decimal(out, total.count)?;
    out.push(b'\n')
}

/// Adds a line for each total.
pub(crate) fn add_totals(out: &mut Word, totals: &Items<Total>) -> Result<(), NoMemory>
    ensures { OnOk result (out.new ≡ out.old ++ totals_text totals.now) }
{
    for at in 0..totals.len() {
        add_total(out, totals.get(at))?;
    }
    Ok(())
}

/// Adds a line of a word and digits.
pub(crate) fn add_digits(out: &mut Word, word: &[u8], digits: &[u8]) -> Result<(), NoMemory>
    ensures { OnOk result (out.new ≡ out.old ++ line_of_words (word.now ∷ digits.now ∷ [])) }
{
    out.extend(word)?;
    out.push(b' ')?;
    out.extend(digits)?;
    out.push(b'\n')
}
