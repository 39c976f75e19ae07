//! A list in blocks of four or eight items beside a plain vector, over some thousands of steps.

mod slab;

ghost use Rattle.std.specs.Ordering.{nat_cmp};

use sorted_blocks::{Blocks, Items, Place, Probe};
use std::cmp::Ordering;

/// The number that is sought.
#[derive(Drop)]
struct Number(u32);

impl Probe<u32> for Number {
    ghost can_compare = { λ _ _. Unit {0} };

    ghost order = { λ number item. nat_cmp item number.0 };

    fn compare(&self, item: &u32) -> Ordering {
        item.cmp(&self.0)
    }
}

/// Whether these are the numbers that are left of the walk.
fn are_left<const HALF: usize>(walk: Items<'_, u32, HALF>, plain: &[u32]) -> bool {
    let mut left = plain;
    for item in walk {
        match left.split_first() {
            Some((first, rest)) if *first == item => left = rest,
            _ => return false,
        }
    }
    left.is_empty()
}

/// Whether the list holds just these numbers, by its places and by its walk.
fn holds<const HALF: usize>(list: &Blocks<u32, HALF>, plain: &[u32]) -> bool {
    if list.len() != plain.len() {
        return false;
    }
    let mut place = list.first();
    for wanted in plain {
        if !list.is_item(place) || list.get(place) != wanted {
            return false;
        }
        place = list.next(place);
    }
    !list.is_item(place) && are_left(list.iter_from(list.first()), plain)
}

/// Puts the number in, or takes it out where it is there; answers the place where it stood or
/// stands. The look-up begins near a place.
fn turn(list: &mut Blocks<u32, 2>, plain: &mut Vec<u32>, near: Place, number: u32) -> Place {
    if list.reserve_capacity(1).is_err() || list.len() >= list.capacity() {
        return Place::START;
    }
    match (
        list.find_near(near, &Number(number)),
        plain.binary_search(&number),
    ) {
        (Ok(place), Ok(index)) if index < plain.len() => {
            let (item, next) = list.remove(place);
            let _ = plain.remove(index);
            if item == number { next } else { Place::START }
        }
        (Err(place), Err(index)) if index <= plain.len() && plain.len() < 512 => {
            if !are_left(list.iter_from(place), &plain[index..]) {
                // An empty list beside it, so that the next comparison fails.
                plain.clear();
                return Place::START;
            }
            if plain.insert(index, number).is_err() {
                return Place::START;
            }
            list.insert_within(place, number)
        }
        _ => near,
    }
}

/// The next of a row of numbers that look random.
fn next_random(number: u64) -> u64 {
    number
        .wrapping_mul(6_364_136_223_846_793_005)
        .wrapping_add(1_442_695_040_888_963_407)
}

/// Takes turns with numbers that look random: whether the list goes as the vector.
fn goes_beside(list: &mut Blocks<u32, 2>, plain: &mut Vec<u32>) -> bool {
    let mut random = 1u64;
    let mut near = Place::START;
    for step in 0..6000u32 {
        random = next_random(random);
        let range = if step % 2000 < 1000 { 128 } else { 16 };
        let number = ((random >> 33) % range) as u32;
        near = turn(list, plain, near, number);
        if !holds(list, plain) {
            return false;
        }
    }
    true
}

#[test]
fn goes_beside_a_plain_vector(rt: HostRuntime) {
    let mut list: Blocks<u32, 2> = Blocks::new(rt.alloc());
    let mut plain: Vec<u32> = Vec::new(rt.alloc());
    assert!(rt; goes_beside(&mut list, &mut plain));
}

/// Whether a list with room for 60 numbers keeps its room while each comes and goes.
fn fits(list: &mut Blocks<u32, 2>) -> bool {
    if list.reserve_capacity(60).is_err() {
        return false;
    }
    let capacity = list.capacity();
    let mut random = 1u64;
    for _step in 0..4000u32 {
        random = next_random(random);
        let number = ((random >> 33) % 60) as u32;
        match list.find(&Number(number)) {
            Ok(place) => {
                let _ = list.remove(place);
            }
            Err(place) => {
                if list.len() >= list.capacity() {
                    return false;
                }
                let _ = list.insert_within(place, number);
            }
        }
        if list.capacity() != capacity {
            return false;
        }
    }
    capacity >= 60
}

#[test]
fn fits_after_removals(rt: HostRuntime) {
    let mut list: Blocks<u32, 2> = Blocks::new(rt.alloc());
    assert!(rt; fits(&mut list));
}

/// Puts a number in that isn't there, where it belongs.
fn put<const HALF: usize>(list: &mut Blocks<u32, HALF>, plain: &mut Vec<u32>, number: u32) -> bool {
    match (list.find(&Number(number)), plain.binary_search(&number)) {
        (Err(place), Err(index)) if index <= plain.len() && list.len() < list.capacity() => {
            let _ = list.insert_within(place, number);
            plain.insert(index, number).is_ok()
        }
        _ => false,
    }
}

/// Takes the first number out, where there is one.
fn take_first<const HALF: usize>(list: &mut Blocks<u32, HALF>, plain: &mut Vec<u32>) -> bool {
    let place = list.first();
    if !list.is_item(place) || plain.is_empty() {
        return !list.is_item(place) && plain.is_empty();
    }
    let (item, _next) = list.remove(place);
    item == plain.remove(0)
}

/// Takes out the number that stands behind so many others, where there is one.
fn take_behind<const HALF: usize>(
    list: &mut Blocks<u32, HALF>,
    plain: &mut Vec<u32>,
    others: usize,
) -> bool {
    if others >= plain.len() {
        return true;
    }
    let number = plain.remove(others);
    match list.find(&Number(number)) {
        Ok(place) => {
            let (item, _next) = list.remove(place);
            item == number
        }
        Err(_) => false,
    }
}

/// Puts a number before all others or behind them, or takes one out at the front or elsewhere. A
/// higher step has a lower number for the front and a higher one for the end.
fn use_an_end<const HALF: usize>(
    list: &mut Blocks<u32, HALF>,
    plain: &mut Vec<u32>,
    step: u32,
    random: u64,
) -> bool {
    match (random >> 33) % 8 {
        0 | 1 if plain.len() < 40 => put(list, plain, 10_000 - step % 10_000),
        2 | 3 if plain.len() < 40 => put(list, plain, 10_000 + step % 10_000),
        4 => take_behind(list, plain, ((random >> 40) % 40) as usize),
        _ => take_first(list, plain),
    }
}

/// Lets numbers come behind and go in front: whether each is there in its time. The queue is longer
/// by one every hundred steps.
fn queues(list: &mut Blocks<u32, 4>, plain: &mut Vec<u32>) -> bool {
    if list.reserve_capacity(40).is_err() {
        return false;
    }
    for number in 0..4000u32 {
        if plain.len() > (number / 100) as usize && !take_first(list, plain) {
            return false;
        }
        if !holds(list, plain) || plain.len() < 40 && !put(list, plain, number) {
            return false;
        }
        if !holds(list, plain) {
            return false;
        }
    }
    empties(list, plain)
}

/// Takes 40 numbers out in front: whether none is left.
fn empties(list: &mut Blocks<u32, 4>, plain: &mut Vec<u32>) -> bool {
    for _number in 0..40u32 {
        if !take_first(list, plain) || !holds(list, plain) {
            return false;
        }
    }
    list.len() == 0
}

#[test]
fn is_a_queue(rt: HostRuntime) {
    let mut list: Blocks<u32, 4> = Blocks::new(rt.alloc());
    let mut plain: Vec<u32> = Vec::new(rt.alloc());
    assert!(rt; queues(&mut list, &mut plain));
}

/// Fills and empties a list at both ends: whether it goes as the vector.
fn uses_ends<const HALF: usize>(
    list: &mut Blocks<u32, HALF>,
    plain: &mut Vec<u32>,
    seed: u64,
) -> bool {
    if list.reserve_capacity(40).is_err() {
        return false;
    }
    let mut random = seed;
    for step in 1..8000u32 {
        random = next_random(random);
        if !use_an_end(list, plain, step, random) || !holds(list, plain) {
            return false;
        }
    }
    true
}

#[test]
fn is_emptied_and_filled_at_both_ends(rt: HostRuntime) {
    let mut few: Blocks<u32, 2> = Blocks::new(rt.alloc());
    let mut plain: Vec<u32> = Vec::new(rt.alloc());
    assert!(rt; uses_ends(&mut few, &mut plain, 1));
}

#[test]
fn is_emptied_and_filled_at_both_ends_of_longer_blocks(rt: HostRuntime) {
    let mut more: Blocks<u32, 4> = Blocks::new(rt.alloc());
    let mut plain: Vec<u32> = Vec::new(rt.alloc());
    assert!(rt; uses_ends(&mut more, &mut plain, 2));
}

/// Takes at most `most` numbers of one block out at once, after the first number. Returns whether
/// the block lent them, and the others stay.
fn take_seconds<const HALF: usize>(
    list: &mut Blocks<u32, HALF>,
    plain: &mut Vec<u32>,
    most: usize,
) -> bool {
    let first = list.first();
    if !list.is_item(first) {
        return false;
    }
    let second = list.next(first);
    if !list.is_item(second) {
        return plain.len() == 1;
    }
    let row = list.row_from(second);
    let count = most.min(row.len());
    let lent = row.first() == plain.get(1);
    let behind = list.remove_in_block(second, count);
    for _gone in 0..count {
        if plain.len() > 1 {
            let _number = plain.remove(1);
        }
    }
    match plain.split_first() {
        Some((_first, others)) => {
            lent && are_left(list.iter_from(behind), others) && holds(list, plain)
        }
        None => false,
    }
}

/// Puts 40 numbers in, and takes up to four at once out until one is left. Returns whether the list
/// goes as the vector.
fn some_go(list: &mut Blocks<u32, 2>, plain: &mut Vec<u32>) -> bool {
    if list.reserve_capacity(40).is_err() {
        return false;
    }
    for number in 0..40u32 {
        if !put(list, plain, number) {
            return false;
        }
    }
    for step in 0..60usize {
        if !take_seconds(list, plain, step % 5) {
            return false;
        }
    }
    list.len() == 1
}

#[test]
fn some_of_a_block_go_at_once(rt: HostRuntime) {
    let mut list: Blocks<u32, 2> = Blocks::new(rt.alloc());
    let mut plain: Vec<u32> = Vec::new(rt.alloc());
    assert!(rt; some_go(&mut list, &mut plain));
}
