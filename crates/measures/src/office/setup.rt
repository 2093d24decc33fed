//! The setup of the offices: one race of two candidates, five instances and two stations.
use crate::stop::Stop;
use std::alloc::Global;

const HEAD: &str =
    "scantegrity2 1\nelection E\ninstances 5\nrace R 2 1\ncand A\ncand B\nstyle S 0\nballots 0";

const SEED: &str = "0000000000000000000000000000000000000000000000000000000000000000";

/// The secret of a station: of the first one, or of the second.
pub(super) fn secret_of(station: u32) -> &'static str {
    match station {
        0 => "00000000000000000000000000000000",
        _ => "11111111111111111111111111111111",
    }
}

/// The text of the setup for so many ballots.
pub(super) fn setup_text(alloc: Global, ballots: u32) -> Result<String, Stop> {
    let head = HEAD;
    let seed = SEED;
    let first = secret_of(0);
    let second = secret_of(1);
    let text = format!(in alloc;
        "{head} {ballots}\nseed {seed}\nsecret {first}\nsecret {second}\n"
    )?;
    Ok(text)
}
