//! What a row of the table of the commands is made of, and the numbers that stand behind names.
use crate::command::Command;

/// A number behind a command's name.
#[derive(Clone, Copy)]
pub(crate) struct Number {
    /// What it is called.
    pub(crate) name: &'static str,
    /// The least that it may be.
    pub(crate) least: u32,
    /// The most that it may be.
    pub(crate) most: u32,
}

/// What two numbers behind a command's name are for.
#[derive(Clone, Copy)]
pub(crate) enum Pair {
    /// Where to serve, and how often.
    Service,
    /// What a sample is made from.
    Sample,
}

/// What stands behind a command's name.
#[derive(Clone, Copy)]
pub(crate) enum Takes {
    /// Nothing: the name alone asks for this command.
    Nothing(Command),
    /// Two numbers.
    Two(Number, Number, Pair),
}

/// The words of a command.
#[derive(Clone, Copy)]
pub(crate) struct Form {
    /// The first word.
    pub(crate) name: &'static str,
    /// What stands behind it.
    pub(crate) takes: Takes,
}

/// A port.
pub(crate) const PORT: Number = Number {
    name: "PORT",
    least: 1,
    most: 65_535,
};

/// How many connections one run serves.
pub(crate) const COUNT: Number = Number {
    name: "COUNT",
    least: 1,
    most: 1_000_000,
};

/// The number that a sample's seed is made from.
pub(crate) const SEED: Number = Number {
    name: "SEED",
    least: 0,
    most: 4_294_967_295,
};

/// How many ballots a sample has.
pub(crate) const BALLOTS: Number = Number {
    name: "BALLOTS",
    least: 1,
    most: 9_000,
};
