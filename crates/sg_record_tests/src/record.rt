//! Small records: what is read of their texts, that it is written as these texts again, and what is left where a put fails.
use crate::texts::{ALL_FATES, DISPUTE, MANY_BITS, ONE_BALLOT, push_times, text_of, three_ballots};
use crate::trials::{Trial, holds};
use crate::writing::count_feeds;
use sg_outside::Page;
use sg_plan::NoMemory;
use sg_record::{Line, Pen};
use std::alloc::Global;
use std::test::Fail;

#[test]
fn each_fate_is_read_and_written(rt: HostRuntime) -> Result<(), Fail> {
    let text = text_of(rt.alloc(), &ALL_FATES)?;
    assert!(rt; holds(rt.alloc(), &text, Trial::Fates)?);
    Ok(())
}

#[test]
fn many_bits_are_read_and_written(rt: HostRuntime) -> Result<(), Fail> {
    let text = text_of(rt.alloc(), &MANY_BITS)?;
    assert!(rt; holds(rt.alloc(), &text, Trial::Bits)?);
    Ok(())
}

#[test]
fn a_front_is_left_at_each_line(rt: HostRuntime) -> Result<(), Fail> {
    let text = text_of(rt.alloc(), &ALL_FATES)?;
    assert!(rt; count_feeds(&text) == 148);
    assert!(rt; holds(rt.alloc(), &text, Trial::Fronts(148))?);
    Ok(())
}

#[test]
fn form_is_told(rt: HostRuntime) -> Result<(), Fail> {
    let text = text_of(rt.alloc(), &ALL_FATES)?;
    assert!(rt; holds(rt.alloc(), &text, Trial::Form)?);
    Ok(())
}

#[test]
fn codes_are_tabled(rt: HostRuntime) -> Result<(), Fail> {
    assert!(rt; holds(rt.alloc(), three_ballots(), Trial::Codes)?);
    Ok(())
}

/// The text without its last byte.
fn cut(text: &[u8]) -> &[u8] {
    match text.split_last() {
        Some((_, front)) => front,
        None => text,
    }
}

#[test]
fn no_cut_text_is_read(rt: HostRuntime) -> Result<(), Fail> {
    for lines in [ALL_FATES.as_slice(), MANY_BITS.as_slice(), &[]] {
        let text = text_of(rt.alloc(), lines)?;
        assert!(rt; !holds(rt.alloc(), cut(&text), Trial::Read)?);
    }
    Ok(())
}

/// A record with so many disputes is read.
fn is_read_with(alloc: Global, disputes: usize) -> Result<bool, Fail> {
    let mut text = text_of(alloc, &ONE_BALLOT)?;
    push_times(&mut text, DISPUTE, disputes)?;
    holds(alloc, &text, Trial::Read)
}

#[test]
fn no_dispute_is_read_behind_the_last(rt: HostRuntime) -> Result<(), Fail> {
    for (disputes, is_read) in [(0, true), (10_000, true), (10_001, false)] {
        assert!(rt;
            is_read_with(rt.alloc(), disputes)? == is_read,
            "{disputes}"
        );
    }
    Ok(())
}

/// A cast ballot and a seal over its line, which `sha256sum` made of the bytes before it.
const SEALED: &str =
    "cast 1\nseal 1 be5899f7ce1861413be3572673add4d58f7ecd74989d8c4ccb657b7b30516159\n";

/// The sink takes both lines of [`SEALED`], each in one put.
fn is_sealed(alloc: Global, page: &mut Page) -> Result<bool, NoMemory> {
    let mut pen = Pen::sealing(alloc, 1)?;
    Ok(pen.put_line(&Line::Cast(1), page).is_ok() && pen.put_seal(1, page).is_ok())
}

/// Where this put fails, the page has these bytes of both lines.
fn seals(alloc: Global, call: u32, text: &[u8]) -> Result<bool, Fail> {
    let mut page = Page::new(alloc, 100, vec![in alloc; call]?, 4)?;
    let is_sealed = is_sealed(alloc, &mut page)?;
    Ok(is_sealed == (call > 1) && page.written() == text)
}

#[test]
fn what_is_written_is_sealed(rt: HostRuntime) -> Result<(), Fail> {
    for (call, text) in [(0, "cast"), (1, "cast 1\nseal"), (2, SEALED)] {
        assert!(rt; seals(rt.alloc(), call, text.as_bytes())?, "{call}");
    }
    Ok(())
}
