//! Tables that keep their first places alone in memory.
use crate::made::list;
use std::process::Abort;
use tp_places::{Overlay, Places};
use tp_types::TryClone;

/// Whether these stand at the first places, 0 for none.
fn has(places: &Places<i128>, members: &[i128]) -> bool {
    for (at, member) in members.iter().enumerate() {
        let stands = match places.get(at) {
            None => 0,
            Some(value) => *value,
        };
        if stands != *member {
            return false;
        }
    }
    true
}

/// Puts a value at a place.
fn put(rt: &(impl Abort + AllocGlobal), places: &mut Places<i128>, at: usize, value: i128) {
    places.put(at, value).expect(rt, "memory for a place");
}

#[test]
fn only_the_first_places_are_made(rt: HostRuntime) {
    let mut places = Places::none(rt.alloc(), 5);
    assert!(rt; places.made().is_empty() && has(&places, &[0, 0, 0, 0, 0]));
    put(&rt, &mut places, 2, 7);
    put(&rt, &mut places, 5, 9);
    assert!(rt; places.made().len() == 3 && has(&places, &[0, 0, 7, 0, 0, 0]));
    put(&rt, &mut places, 1, 8);
    put(&rt, &mut places, 2, 6);
    let copy = places
        .try_clone(rt.alloc())
        .expect(&rt, "memory for a copy");
    let taken = places.take(2);
    assert!(rt; taken == Some(6) && places.take(4).is_none() && has(&places, &[0, 8, 0, 0, 0]));
    places.clear(1);
    assert!(rt; has(&places, &[0, 0, 0, 0, 0]) && has(&copy, &[0, 8, 6, 0, 0]));
    let made = copy.into_made();
    assert!(rt; made.len() == 3 && places.made().len() == 3);
    drop(made);
    drop(places);
}

#[test]
fn places_are_made_of_a_front(rt: HostRuntime) {
    let mut places = Places::from_made(3, list(&rt, [Some(4)]));
    put(&rt, &mut places, 2, 5);
    put(&rt, &mut places, 3, 6);
    if let Some(value) = places.get_mut(2) {
        *value = 7;
    }
    assert!(rt; places.get_mut(1).is_none());
    assert!(rt; places.made().len() == 3 && has(&places, &[4, 0, 7, 0]));
    drop(places);
}

/// Whether these stand at the first places, 0 for none.
fn overlays(overlay: &Overlay<i128>, members: &[i128]) -> bool {
    for (at, member) in members.iter().enumerate() {
        if overlay.get(at).unwrap_or(0) != *member {
            return false;
        }
    }
    true
}

/// Five places, made from this one on, of which three are filled, and one twice.
fn is_overlay_from(rt: &(impl Abort + AllocGlobal), first: usize) -> bool {
    let mut overlay = Overlay::none(rt.alloc(), 5, first).expect(rt, "memory for an overlay");
    let was_empty = overlays(&overlay, &[0, 0, 0, 0, 0]);
    overlay.put(3, 7);
    overlay.put(5, 9);
    let has_one = overlays(&overlay, &[0, 0, 0, 7, 0, 0]);
    overlay.put(1, 8);
    overlay.put(3, 6);
    let copy = overlay
        .try_clone(rt.alloc())
        .expect(rt, "memory for a copy");
    overlay.put(4, 5);
    let is = overlays(&overlay, &[0, 8, 0, 6, 5, 0]) && overlays(&copy, &[0, 8, 0, 6, 0, 0]);
    drop(copy);
    drop(overlay);
    was_empty && has_one && is
}

#[test]
fn an_overlay_is_the_same_from_wherever_it_is_made(rt: HostRuntime) {
    for first in 0..7 {
        assert!(rt; is_overlay_from(&rt, first));
    }
}
