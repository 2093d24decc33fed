//! The two words that say where to serve, and how often.
ghost use Rattle.std.specs.Prelude.{◌≡◌, IfSome};
ghost use Rattle.sg_words.specs.Numbers.{IsService, service_in};

use crate::number::number_of;
use crate::table::{COUNT, PORT};

/// Where connections are taken, and how many.
#[derive(Clone, Copy, Debug, PartialEq, Eq)]
pub struct Service {
    /// The port: 1 to 65,535.
    pub port: u16,
    /// How many connections are served: 1 to 1,000,000.
    pub count: u32,
}

/// The service that two words ask for: a port from 1 to 65,535, and 1 to 1,000,000 connections, both in decimal digits
/// without a sign or a leading zero.
pub(crate) fn service_of(port: &[u8], count: &[u8]) -> Option<Service>
    ensures is { result ≡ service_in port.now count.now }
    ensures sized { IfSome result IsService }
{
    let port = number_of(&PORT, port)?;
    let count = number_of(&COUNT, count)?;
    Some(Service {
        port: port as u16,
        count,
    })
}
