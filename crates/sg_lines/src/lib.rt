//! The words of a line of the record: the one spelling of each, read and written.
//!
//! Numbers, keys, digests, codes, names, bits and other bytes each have one spelling. A reader answers `Some` exactly
//! on it, and a writer writes it. Texts are cut into words at a byte. Only `hex_bytes` takes memory.
#![tactic(auto)]

mod any_bytes;
mod bits;
mod bytes;
mod code;
pub mod laws;
mod number;
mod parts;
mod rows;

pub use any_bytes::hex_bytes;
pub use bits::is_bits;
pub use bytes::{read_digest, read_hex, read_key, write_hex};
pub use code::{read_code, write_code};
pub use number::{decimal_len, read_decimal, write_decimal};
pub use parts::Parts;
pub use sg_plan::is_name;
