//! A stamp's secret.
ghost use Rattle.std.specs.Prelude.{◌≡◌, bytes_eq};
ghost use Rattle.sg_histories.specs.Answers.{knows_secret_of};

use sg_acts::Stamp;
use sg_plan::Items;

/// The two secrets are the same. All bytes are compared, wherever the first difference stands.
fn same_secret(own: &[u8; 16], given: &[u8; 16]) -> bool
    ensures { result ≡ bytes_eq own.now given.now }
{
    let mut is_same = true;
    for at in 0..16 {
        is_same &= own[at] == given[at];
    }
    is_same
}

/// The station is in the setup, and the secret is its own.
pub fn knows_secret(secrets: &Items<[u8; 16]>, stamp: &Stamp) -> bool
    ensures { result ≡ knows_secret_of secrets.now stamp.now }
{
    let station = stamp.station as usize;
    if station >= secrets.len() {
        return false;
    }
    same_secret(secrets.get(station), &stamp.secret)
}
