ghost use Rattle.std.specs.Prelude.{◌≡◌, nat_lt};
ghost use Rattle.ordered.specs.Orders.{rank};
ghost use Rattle.std.proofs.Common.{rules};

use crate::array_list::{ArrayList, Full};
use crate::compare::compare;
use crate::find::find;
use crate::insert::{NotInserted, insert};
use crate::order::TotalOrder;
use std::cmp::Ordering;

#[test]
fn finds(rt: HostRuntime) {
    let xs = [2, 4, 6];
    assert_eq!(rt; find(&xs, &2u8), Ok(0));
    assert_eq!(rt; find(&xs, &4u8), Ok(1));
    assert_eq!(rt; find(&xs, &6u8), Ok(2));
    assert_eq!(rt; find(&xs, &1u8), Err(0));
    assert_eq!(rt; find(&xs, &5u8), Err(2));
    assert_eq!(rt; find(&xs, &7u8), Err(3));
    assert_eq!(rt; find(&xs[0..0], &4u8), Err(0));
}

// Each row is an item, how many slots are in use, what is answered, and the slots after.
#[test]
fn inserts(rt: HostRuntime) {
    let rows = [
        (1u8, 3, Ok(0), [1, 2, 4, 6, 9]),
        (5, 3, Ok(2), [2, 4, 5, 6, 9]),
        (7, 3, Ok(3), [2, 4, 6, 7, 9]),
        (7, 0, Ok(0), [7, 4, 6, 8, 9]),
        (4, 3, Err(NotInserted::Present(1)), [2, 4, 6, 8, 9]),
        (5, 5, Err(NotInserted::Full), [2, 4, 6, 8, 9]),
        (4, 5, Err(NotInserted::Present(1)), [2, 4, 6, 8, 9]),
        (5, 6, Err(NotInserted::Full), [2, 4, 6, 8, 9]),
    ];
    for (item, count, answer, after) in rows {
        let mut slots = [2, 4, 6, 8, 9];
        assert_eq!(rt; insert(&mut slots, count, item), answer);
        assert_eq!(rt; slots, after);
    }
}

#[test]
fn compares(rt: HostRuntime) {
    let xs = [1u8, 3, 5];
    assert_eq!(rt; compare(&xs[0..0], &xs[0..0]), Ordering::Equal);
    assert_eq!(rt; compare(&xs[0..2], &xs), Ordering::Less);
    assert_eq!(rt; compare(&xs, &xs[0..2]), Ordering::Greater);
    assert_eq!(rt; compare(&xs, &[1, 4]), Ordering::Less);
    assert_eq!(rt; compare(&[1, 4], &xs), Ordering::Greater);
    assert_eq!(rt; compare(&xs, &[1, 3, 5]), Ordering::Equal);
}

#[test]
fn fills_up(rt: HostRuntime) {
    let mut list: ArrayList<u8, 3> = ArrayList::new();
    assert_eq!(rt; list.insert(6), Ok(0));
    assert_eq!(rt; list.insert(2), Ok(0));
    assert_eq!(rt; list.insert(6), Err(NotInserted::Present(1)));
    assert_eq!(rt; list.push(8), Ok(()));
    assert_eq!(rt; list.push(9), Err(Full));
    assert_eq!(rt; list.insert(4), Err(NotInserted::Full));
    assert!(rt; list.as_slice() == [2, 6, 8].as_slice());
    assert_eq!(rt; list.len(), 3);
}

// A caller's own kind of item, the greatest first, with no comparison besides.
#[derive(Clone, Copy)]
struct Countdown {
    number: u8,
}

impl TotalOrder for Countdown {
    ghost less = { λ x y. nat_lt y.number x.number };

    ghost total = { Prim.search rules };

    fn order(&self, other: &Countdown) -> Ordering {
        other.number.cmp(&self.number)
    }
}

#[test]
fn orders_items_of_a_caller(rt: HostRuntime) {
    let mut slots = [9, 4, 2, 0].map(|number| Countdown { number });
    assert_eq!(rt; find(&slots[0..3], &Countdown { number: 4 }), Ok(1));
    assert_eq!(rt; compare(&slots[0..1], &slots[1..2]), Ordering::Less);
    assert_eq!(rt; insert(&mut slots, 3, Countdown { number: 5 }), Ok(1));
    assert_eq!(rt; slots.map(|item| item.number), [9, 5, 4, 2]);
}
