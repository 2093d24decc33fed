//! Small records, line by line.
use std::alloc::{AllocError, Global};
use std::slice;

/// The digits of a digest of zeros, and of one of the greatest bytes.
const ZEROS: [u8; 64] = [b'0'; 64];

const GREATEST: [u8; 64] = [b'f'; 64];

/// The text of a record with two races, three instances, each fate, an `over` line, public bytes and two disputes.
///
/// Each line stands as often as is said. `#` is a digest of zeros, `@` one of the greatest bytes, and `$` a key of zeros.
pub(crate) const ALL_FATES: [(usize, &str); 59] = [
    (1, "scantegrity2 2\n"),
    (1, "election Town\n"),
    (1, "instances 3\n"),
    (1, "race Mayor 2 1\n"),
    (1, "cand A\n"),
    (1, "cand B\n"),
    (1, "race Board 2 2\n"),
    (1, "cand A\n"),
    (1, "cand B\n"),
    (1, "style Both 0 1\n"),
    (1, "style One 0\n"),
    (1, "ballots 0 2\n"),
    (1, "ballots 1 3\n"),
    (10, "code-commit 0 #\n"),
    (4, "code-commit 1 #\n"),
    (10, "row-commit 0 0 # @\n"),
    (10, "row-commit 0 1 # @\n"),
    (10, "row-commit 0 2 # @\n"),
    (4, "row-commit 1 0 # @\n"),
    (4, "row-commit 1 1 # @\n"),
    (4, "row-commit 1 2 # @\n"),
    (1, "seal 1 #\n"),
    (1, "cast 1\n"),
    (1, "code 0 1 $ 22Z\n"),
    (1, "code 1 0 $ 222\n"),
    (1, "code 1 1 $ 223\n"),
    (1, "audited 2\n"),
    (1, "paper 0 222 223\n"),
    (1, "paper 1 232 ZZZ\n"),
    (1, "code 0 0 $ 223\n"),
    (1, "code 0 1 $ 222\n"),
    (1, "code 1 0 $ 224\n"),
    (1, "code 1 1 $ 225\n"),
    (1, "spoiled 3\n"),
    (1, "voided 4\n"),
    (1, "cast 5\n"),
    (1, "over 0\n"),
    (1, "flags 0 0 1000000000\n"),
    (1, "flags 0 1 1000000000\n"),
    (1, "flags 0 2 1000000000\n"),
    (1, "places 0 1000000000\n"),
    (1, "total 0 0 7\n"),
    (1, "total 0 1 0\n"),
    (1, "flags 1 0 1000\n"),
    (1, "flags 1 1 1000\n"),
    (1, "flags 1 2 1000\n"),
    (1, "places 1 1000\n"),
    (1, "total 1 0 7\n"),
    (1, "total 1 1 0\n"),
    (1, "seal 2 @\n"),
    (1, "draw 00ff10\n"),
    (42, "left $ 3\n"),
    (1, "seal 3 #\n"),
    (1, "dispute 1 1 222 posted\n"),
    (1, "code 1 0 $ 222\n"),
    (1, "code 1 1 $ 223\n"),
    (1, "dispute 5 0 Z22 absent\n"),
    (1, "code 0 0 $ 222\n"),
    (1, "code 0 1 $ 226\n"),
];

/// The text of a record with 65 flags, and a race that no ballot carries. `%` is 63 zeros.
pub(crate) const MANY_BITS: [(usize, &str); 25] = [
    (1, "scantegrity2 1\n"),
    (1, "election Town\n"),
    (1, "instances 1\n"),
    (1, "race Mayor 13 1\n"),
    (
        1,
        "cand A\ncand B\ncand C\ncand D\ncand E\ncand F\ncand G\n",
    ),
    (1, "cand H\ncand I\ncand J\ncand K\ncand L\ncand M\n"),
    (1, "race Board 2 2\n"),
    (1, "cand A\ncand B\n"),
    (1, "style One 0\n"),
    (1, "ballots 0 5\n"),
    (65, "code-commit 0 #\n"),
    (65, "row-commit 0 0 # @\n"),
    (1, "seal 1 #\n"),
    (1, "flags 0 0 1%\n"),
    (1, "flags 0 0 0\n"),
    (1, "places 0 1%\n"),
    (1, "places 0 0\n"),
    (
        1,
        "total 0 0 7\ntotal 0 1 0\ntotal 0 2 0\ntotal 0 3 0\ntotal 0 4 0\n",
    ),
    (
        1,
        "total 0 5 0\ntotal 0 6 0\ntotal 0 7 0\ntotal 0 8 0\ntotal 0 9 0\n",
    ),
    (1, "total 0 10 0\ntotal 0 11 0\ntotal 0 12 0\n"),
    (1, "total 1 0 0\ntotal 1 1 0\n"),
    (1, "seal 2 @\n"),
    (1, "draw full\n"),
    (65, "left $ 3\n"),
    (1, "seal 3 #\n"),
];

/// The text of a record with one ballot, and two codes.
pub(crate) const ONE_BALLOT: [(usize, &str); 14] = [
    (1, "scantegrity2 1\n"),
    (1, "election Town\n"),
    (1, "instances 1\n"),
    (1, "race Mayor 2 1\ncand A\ncand B\n"),
    (1, "style One 0\n"),
    (1, "ballots 0 1\n"),
    (2, "code-commit 0 #\n"),
    (2, "row-commit 0 0 # @\n"),
    (1, "seal 1 #\n"),
    (1, "flags 0 0 00\nplaces 0 00\ntotal 0 0 0\ntotal 0 1 0\n"),
    (1, "seal 2 @\n"),
    (1, "draw full\n"),
    (2, "left $ 3\n"),
    (1, "seal 3 #\n"),
];

/// The block of a dispute of that ballot.
pub(crate) const DISPUTE: &str = "dispute 1 0 003 absent\ncode 0 0 $ 001\ncode 0 1 $ 002\n";

/// A record of three ballots: one is cast for the first candidate, one is audited, and one is unused. The other code of the
/// ballot that is cast is claimed.
pub(crate) fn three_ballots() -> &'static [u8] {
    b"scantegrity2 1\nelection E\ninstances 1\nrace Mayor 2 1\ncand Ada\ncand Ben\nstyle All 0\nballots 0 3\ncode-commit 0 123807675a76b7e57fe9def2febbd3882923b671b0a8ba9397c53fc177ce1a5c\ncode-commit 0 e755c6b0191266d22e25ccdaf7ac59bf59595307f1062fad69c8f3f590d86602\ncode-commit 0 f1290426e40f27673f868f45207f805abd8d0c0f85048593f57a072dbee557d0\ncode-commit 0 8cc2042024f927c5edc1be0680778c55a8ab8c78d145528dbd25ba3f8eada167\ncode-commit 0 a0db4bf76c9ea5a6cf0bf33158c4a54fde2ecf2c2b9d8de67ed7fdc3915c98a0\ncode-commit 0 4728a87d948e6a5f9d1c121bd6d45898fe4c20ea53739ea52cec129b4da8a758\nrow-commit 0 0 1678c4c0ea83f3448f66960074ee2ad03d43939cdbcaed636e075d476ddebed7 c2d0d5c933b1af6726e7759ee6dffbf4a93e134d760866522faa28280ba061d8\nrow-commit 0 0 c2025911cf517da5e625bb160e51b6b38ca9b7338514a284aecb1ba2411ca188 8d70bf578f4407b8ef28d55bd53a7b4fbf57dfb661b9a0f14191060e153fe9f5\nrow-commit 0 0 c18cb849ac71a187b297da6dafe1f5d58750e065b753a7dee9139464b3ee5c0a dd03cbe0ddc61ea2b966f0c457b423cf7846bbac95f49def7e62edf5cd636211\nrow-commit 0 0 a4d26fd90a3d9ea771622015d257480d18e7719e67a154999add06a42010351d e4f052b9f46a358bd42da6e23f42c5b84392b3a5684bb4445929fa9985821bab\nrow-commit 0 0 b39f5b616902d821bc0a28e684cb4c0a57e2ec7b98ff62378e87302136294620 fd066ffc21a22d8ae1a66ce7193031985f88fe80ecc3eac77e5c9026730ec7c5\nrow-commit 0 0 395d41f6c650d25d822d81a7fe7c0c7c1ff3c7dbf77ae0be661947839b01fd3c 7d9b51b4415e6013b2cf766bc2c2cc9945544585970ba5eea0a45ce3cb69a714\nseal 1 d4e4683b780bfc7efa7a4ad6ab330c0ca7cb9c7b9cca8b125704d8ebc8c3774b\ncast 1\ncode 0 0 2aac1b6c854ccb8675c7d148f3c14712 100\naudited 2\npaper 0 300 400\ncode 0 0 291de893fe714de7336c40303eb052ab 300\ncode 0 1 25bc807a134eff9f02e2ab61caa14b49 400\nflags 0 0 010000\nplaces 0 001000\ntotal 0 0 1\ntotal 0 1 0\nseal 2 85f213fa109b399ecb3633c6b093da4b12015ecbf5438b6eaeb5af3fb9c1dec6\ndraw 00000007\nboth 5ef10928d879217256fc2e83a617e588 3 8b5f016547f96871bb20356e9b2ea912 3\nright 3f5a2f5b03bc11f27ec4662967781472 2\nleft 72b691a13b5498c31572245e71132e4d 5\nright d4f74fec4dd36c3fc7221871f6953c2f 1\nright 7dabbbe1c0ac50e577bc3c65980cf149 4\nboth c476bce4f4ae5b504b5ff7607bffedb1 2 7668df1c7bcaba90d6ad239691ee1f52 0\nseal 3 58092fd42045324a4b7ba6e1628aff7e5ec139b5faefa3ccf38db2cefcf77290\ndispute 1 0 200 unposted\ncode 0 0 2aac1b6c854ccb8675c7d148f3c14712 100\ncode 0 1 e0d253d3727a71e14414353c36cdbc79 200\n"
}

/// What a byte of a line stands for.
fn meant(byte: &u8) -> &[u8] {
    match *byte {
        b'#' => ZEROS.as_slice(),
        b'@' => GREATEST.as_slice(),
        b'$' => &ZEROS[..32],
        b'%' => &ZEROS[..63],
        _ => slice::from_ref(byte),
    }
}

/// Puts a line behind the text.
fn push_line(text: &mut Vec<u8>, line: &str) -> Result<(), AllocError> {
    for byte in line.as_bytes() {
        text.extend_from_slice(meant(byte))?;
    }
    Ok(())
}

/// Puts a line behind the text, so often.
pub(crate) fn push_times(text: &mut Vec<u8>, line: &str, count: usize) -> Result<(), AllocError> {
    for _ in 0..count {
        push_line(text, line)?;
    }
    Ok(())
}

/// Puts the lines behind the text.
fn push_lines(text: &mut Vec<u8>, lines: &[(usize, &str)]) -> Result<(), AllocError> {
    for (count, line) in lines {
        push_times(text, line, *count)?;
    }
    Ok(())
}

/// A text that is written out.
pub(crate) fn text_of(alloc: Global, lines: &[(usize, &str)]) -> Result<Vec<u8>, AllocError> {
    let mut text = Vec::new(alloc);
    push_lines(&mut text, lines)?;
    Ok(text)
}
