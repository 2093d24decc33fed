//! Why a request is refused before it reaches the office.

/// A method of a route.
#[derive(Clone, Copy, Debug, PartialEq, Eq)]
pub enum Verb {
    Get,
    Post,
}

/// Why a request is refused, in the order in which that is asked.
#[derive(Clone, Copy, Debug, PartialEq, Eq)]
pub enum Refusal {
    /// There is no head.
    Head,
    /// There are too many header lines.
    Headers,
    /// The path has no route.
    Route,
    /// The route has another method.
    Method(Verb),
    /// The body has no length that is told.
    NoLength,
    /// The body's length is no number, or stands there twice.
    BadLength,
    /// The body is too long.
    Size,
    /// The connection ended in the body.
    Body,
}
