//! Lists of a record that are told by their first items, the others and their lengths.
use sg_plan::Items;

/// The list has so many items: the first, and else the other one.
fn is_list<T: Copy + PartialEq>(list: &Items<T>, items: (T, T), count: usize) -> bool {
    if list.len() != count {
        return false;
    }
    let mut wanted = items.0;
    for item in list.as_slice() {
        if *item != wanted {
            return false;
        }
        wanted = items.1;
    }
    true
}

/// There are so many lists, and each is such a list.
fn are_lists<T: Copy + PartialEq>(
    lists: &Items<Items<T>>,
    items: (T, T),
    count: usize,
    instances: usize,
) -> bool {
    if lists.len() != instances {
        return false;
    }
    for list in lists.as_slice() {
        if !is_list(list, items, count) {
            return false;
        }
    }
    true
}

/// Each of the two races has such a list.
pub(crate) fn are_by_race<T: Copy + PartialEq>(
    races: &Items<Items<T>>,
    items: (T, T),
    counts: (usize, usize),
) -> bool {
    match races.as_slice() {
        [one, two] => is_list(one, items, counts.0) && is_list(two, items, counts.1),
        _ => false,
    }
}

/// Each of the two races has so many instances with such lists.
pub(crate) fn are_by_instance<T: Copy + PartialEq>(
    races: &Items<Items<Items<T>>>,
    items: (T, T),
    counts: (usize, usize),
    instances: usize,
) -> bool {
    match races.as_slice() {
        [one, two] => {
            are_lists(one, items, counts.0, instances) && are_lists(two, items, counts.1, instances)
        }
        _ => false,
    }
}
