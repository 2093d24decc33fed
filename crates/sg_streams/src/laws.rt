//! Laws of stream numbers, orders and codes: what follows from the definitions alone. Each function does nothing, and its
//! contract is proved.
ghost use Rattle.sg_streams.specs.Laws.{OneOrder, OrdersAreOneToOne, RowsAreCodes, StreamNumbersAreOneToOne};

/// There is exactly one order of each stream and number of numbers.
pub fn one_order_law()
    ensures { OneOrder }
{}

/// An order takes the places below `n` one to one to the numbers below `n`.
pub fn one_to_one_law()
    ensures { OrdersAreOneToOne }
{}

/// The codes of a row are codes of the version, all different, and each is drawn as the rule says.
pub fn row_codes_law()
    ensures { RowsAreCodes }
{}

/// The number of a stream tells its purpose, race and index: two purposes never draw from one stream of a
/// seed.
pub fn stream_numbers_law()
    ensures { StreamNumbersAreOneToOne }
{}
