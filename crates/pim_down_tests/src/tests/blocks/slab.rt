//! A list in blocks of four numbers beside a plain vector, over some thousands of steps.

use super::Number;
use sorted_blocks::Place;
use sorted_slab::{SortedSlab, Walk};

/// Whether these are the items that are left of the walk.
fn are_left(walk: Walk<'_, u32, 2>, plain: &[u32]) -> bool {
    let mut left = plain;
    for item in walk {
        match left.split_first() {
            Some((first, rest)) if *first == *item => left = rest,
            _ => return false,
        }
    }
    left.is_empty()
}

/// Whether the list holds just these, by its places and by its walk.
fn holds(list: &SortedSlab<u32, 2>, plain: &[u32]) -> bool {
    if list.len() != plain.len() {
        return false;
    }
    let mut place = list.first();
    for wanted in plain {
        if !list.is_item(place) || list.get(place) != wanted {
            return false;
        }
        place = list.next(place);
    }
    !list.is_item(place) && are_left(list.walk(list.first(), plain.len()), plain)
}

/// Puts the number in, or takes it out where it is there; answers whether it could.
fn turn(list: &mut SortedSlab<u32, 2>, plain: &mut Vec<u32>, near: Place, number: u32) -> bool {
    match (
        list.find_near(near, &Number(number)),
        plain.binary_search(&number),
    ) {
        (Ok(place), Ok(index)) if index < plain.len() => {
            let (item, _next) = list.remove(place);
            item == plain.remove(index)
        }
        (Err(place), Err(index)) if index <= plain.len() && list.len() < list.capacity() => {
            let stands = list.insert_within(place, number);
            list.is_item(stands)
                && *list.get(stands) == number
                && plain.insert(index, number).is_ok()
        }
        _ => false,
    }
}

/// The next number of a plain sequence.
fn next_number(number: u32) -> u32 {
    number.wrapping_mul(1_664_525).wrapping_add(1_013_904_223)
}

/// Takes turns with numbers that look random: whether the list goes as the vector. No turn changes
/// its room, and no memory is wanted for what is left of it.
fn goes_beside(list: &mut SortedSlab<u32, 2>, plain: &mut Vec<u32>) -> bool {
    if list.reserve(300).is_err() {
        return false;
    }
    let capacity = list.capacity();
    let mut number = 7u32;
    for step in 0..3_000u32 {
        number = next_number(number);
        let first = list.first();
        if !turn(list, plain, first, (number >> 16) % 300) {
            return false;
        }
        if step % 100 == 0 && !holds(list, plain) {
            return false;
        }
    }
    holds(list, plain) && list.capacity() == capacity && list.reserve(0).is_ok()
}

#[test]
fn turns_beside_a_vector(rt: HostRuntime) {
    let mut list: SortedSlab<u32, 2> = SortedSlab::new(rt.alloc());
    let mut plain: Vec<u32> = Vec::new(rt.alloc());
    assert!(rt; goes_beside(&mut list, &mut plain));
}

/// Puts five numbers in, in no order: whether they are there, in order.
fn is_filled(list: &mut SortedSlab<u32, 2>) -> bool {
    if list.reserve(9).is_err() {
        return false;
    }
    for number in [50, 10, 30, 20, 40u32] {
        let Err(place) = list.find(&Number(number)) else {
            return false;
        };
        if list.len() < list.capacity() {
            let _stands = list.insert_within(place, number);
        }
    }
    holds(list, &[10, 20, 30, 40, 50])
}

/// Changes 30 to 35: whether it is found so, by a walk too.
fn is_changed(list: &mut SortedSlab<u32, 2>) -> bool {
    let Ok(place) = list.find(&Number(30)) else {
        return false;
    };
    list.set(place, 35);
    let Err(before) = list.find(&Number(34)) else {
        return false;
    };
    are_left(list.walk(before, 2), &[35, 40]) && holds(list, &[10, 20, 35, 40, 50])
}

/// Whether the numbers from the place of 20 on begin with its own.
fn are_lent(list: &SortedSlab<u32, 2>) -> bool {
    let Ok(place) = list.find(&Number(20)) else {
        return false;
    };
    list.numbers_from(place).first() == Some(&list.number_of(place))
}

#[test]
fn changes_in_place(rt: HostRuntime) {
    let mut list: SortedSlab<u32, 2> = SortedSlab::new(rt.alloc());
    assert!(rt; is_filled(&mut list) && are_lent(&list) && is_changed(&mut list));
}
