//! Small steps on one flat table.
ghost use Rattle.std.specs.Prelude.{◌≡◌, ◌+◌, ◌<◌, ◌≤◌, ◌^◌, length, slice_index_or};
ghost use Rattle.sg_ledger.specs.inside.Tables.{most_marks, most_votes, with_bits, with_first, with_firsts, with_one_more};

use sg_plan::Items;

/// What stands at a place.
pub fn look<T: Copy>(table: &Items<T>, at: usize) -> T
    requires { at < length table.now }
    ensures { (none : T) → slice_index_or table.now at none ≡ result }
{
    *table.get(at)
}

/// Puts the value at the place, unless one stands there.
pub fn put_first<T: Copy + Drop>(table: &mut Items<Option<T>>, at: usize, value: T)
    requires { at < length table.old }
    ensures { table.new ≡ with_first table.old at value }
{
    if look(table, at).is_none() {
        table.replace(at, Some(value));
    }
}

/// Puts each code at a place, unless one stands there. The first is of the place `at`.
pub fn put_firsts(table: &mut Items<Option<u16>>, at: usize, codes: &[u16])
    requires within { at + length codes.now ≤ length table.old }
    requires few { at + length codes.now < 2 ^ 32 }
    ensures { table.new ≡ with_firsts table.old at codes.now }
{
    for (place, code) in codes.iter().enumerate() {
        put_first(table, at + place, *code);
    }
}

/// Counts one more mark at the place.
pub fn count_mark(table: &mut Items<u32>, at: usize)
    requires { at < length table.old }
    ensures { table.new ≡ with_one_more most_marks table.old at }
{
    let count = look(table, at);
    table.replace(at, count.saturating_add(1));
}

/// Counts one more vote at the place.
pub fn count_vote(table: &mut Items<u64>, at: usize)
    requires { at < length table.old }
    ensures { table.new ≡ with_one_more most_votes table.old at }
{
    let count = look(table, at);
    table.replace(at, count.saturating_add(1));
}

/// Sets each place whose bit is a `1`. The first bit is of the place `at`.
pub fn set_bits(table: &mut Items<bool>, at: usize, bits: &[u8])
    requires within { at + length bits.now ≤ length table.old }
    requires few { at + length bits.now < 2 ^ 32 }
    ensures { table.new ≡ with_bits table.old at bits.now }
{
    for (place, bit) in bits.iter().enumerate() {
        if *bit == b'1' {
            table.replace(at + place, true);
        }
    }
}
