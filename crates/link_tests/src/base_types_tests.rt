use base_types::{ItemList, NameMap, Text};
use std::alloc::Global;
use std::process::Abort;

fn push_copied(list: &mut ItemList<Text>, alloc: Global, bytes: &[u8]) -> bool {
    match Text::of(alloc, bytes) {
        Ok(text) => list.push(text).is_ok(),
        Err(_) => false,
    }
}

fn push_taken_over(list: &mut ItemList<Text>, alloc: Global, bytes: &[u8]) -> bool {
    match bytes.to_vec(alloc) {
        Ok(bytes) => list.push(Text::from(bytes)).is_ok(),
        Err(_) => false,
    }
}

fn has_equal_copy(list: &ItemList<Text>) -> bool {
    match list.clone() {
        Ok(copy) => copy.as_slice() == list.as_slice(),
        Err(_) => false,
    }
}

fn is_item(list: &ItemList<Text>, place: usize, bytes: &[u8]) -> bool {
    match list.get(place) {
        Some(text) => text.bytes() == bytes,
        None => false,
    }
}

fn has_two(list: &ItemList<Text>) -> bool {
    list.len() == 2 && list.as_slice().len() == 2 && !list.is_empty()
}

#[test]
fn a_list_gives_its_items_by_place(rt: HostRuntime) {
    let mut list = ItemList::new(rt.alloc());
    assert!(rt; list.is_empty());
    assert!(rt; push_copied(&mut list, rt.alloc(), b"refs/heads/a"));
    assert!(rt; push_taken_over(&mut list, rt.alloc(), b"b"));
    assert!(rt; has_two(&list));
    assert!(rt; is_item(&list, 1, b"b") && list.get(2).is_none());
    assert!(rt; has_equal_copy(&list));
}

// Names and their values, in the order in which they are inserted.
static INSERTED: [(&str, u8); 3] = [("b", 1), ("a", 2), ("b", 3)];

// Names, and the value that each has then.
static VALUES: [(&str, Option<u8>); 3] = [("a", Some(2)), ("b", Some(3)), ("c", None)];

// Three names that fall and rise.
static UNSORTED: [(&str, u8); 3] = [("c", 1), ("a", 2), ("b", 3)];

fn insert(map: &mut NameMap<u8>, alloc: Global, name: &str, value: u8) -> bool {
    match Text::of(alloc, name.as_bytes()) {
        Ok(name) => map.insert(name, value).is_ok(),
        Err(_) => false,
    }
}

fn is_value(map: &NameMap<u8>, alloc: Global, name: &str, value: Option<u8>) -> bool {
    match Text::of(alloc, name.as_bytes()) {
        Ok(name) => map.get(&name).copied() == value,
        Err(_) => false,
    }
}

fn removes(map: &mut NameMap<u8>, alloc: Global, name: &str, value: Option<u8>) -> bool {
    match Text::of(alloc, name.as_bytes()) {
        Ok(name) => map.remove(&name) == value,
        Err(_) => false,
    }
}

// The values in the order of the names, as the digits of one number.
fn digits_of(map: &NameMap<u8>) -> u32 {
    let mut digits: u32 = 0;
    for (_, value) in map.iter() {
        digits = digits.wrapping_mul(10).wrapping_add(u32::from(*value));
    }
    digits
}

#[test]
fn a_map_keeps_the_last_value_of_each_name(rt: HostRuntime) {
    let mut map = NameMap::new(rt.alloc());
    assert!(rt; map.is_empty());
    for (name, value) in &INSERTED {
        assert!(rt; insert(&mut map, rt.alloc(), name, *value));
    }
    assert_eq!(rt; map.len(), 2);
    for (name, value) in &VALUES {
        assert!(rt; is_value(&map, rt.alloc(), name, *value), "of {name}");
    }
}

// A map from which `b` is removed has the others in byte order.
fn check_removal(rt: &impl Abort, alloc: Global, map: &mut NameMap<u8>) {
    assert!(rt; removes(map, alloc, "b", Some(3)));
    assert!(rt; removes(map, alloc, "b", None));
    assert_eq!(rt; digits_of(map), 21);
}

// A copy that is made before keeps it.
fn copy_keeps_all(rt: &impl Abort, alloc: Global, map: &mut NameMap<u8>) -> bool {
    match map.clone() {
        Ok(copy) => {
            check_removal(rt, alloc, map);
            copy.len() == 3
        }
        Err(_) => false,
    }
}

#[test]
fn a_map_gives_its_names_in_byte_order(rt: HostRuntime) {
    let mut map = NameMap::new(rt.alloc());
    for (name, value) in &UNSORTED {
        assert!(rt; insert(&mut map, rt.alloc(), name, *value));
    }
    assert!(rt; copy_keeps_all(&rt, rt.alloc(), &mut map));
}

// Texts, of which the first is before the second: a byte above 127 stands behind every letter, and a
// beginning before the whole.
static ORDERED: [(&str, &str); 4] = [("a", "b"), ("a", "aa"), ("Z", "a"), ("z", "\u{e9}")];

fn is_before(first: &Text, alloc: Global, second: &str) -> bool {
    match Text::of(alloc, second.as_bytes()) {
        Ok(second) => *first < second && *first != second,
        Err(_) => false,
    }
}

fn are_ordered(alloc: Global, first: &str, second: &str) -> bool {
    match Text::of(alloc, first.as_bytes()) {
        Ok(first) => is_before(&first, alloc, second),
        Err(_) => false,
    }
}

fn is_made_of(text: &Text, alloc: Global, bytes: &[u8]) -> bool {
    match Text::of(alloc, bytes) {
        Ok(other) => *text == Text::from(other.into_bytes()),
        Err(_) => false,
    }
}

fn bytes_come_back(alloc: Global, bytes: &[u8]) -> bool {
    match Text::of(alloc, bytes) {
        Ok(text) => is_made_of(&text, alloc, bytes),
        Err(_) => false,
    }
}

#[test]
fn texts_compare_as_bytes(rt: HostRuntime) {
    for (first, second) in &ORDERED {
        assert!(rt;
            are_ordered(rt.alloc(), first, second),
            "{first} and {second}"
        );
    }
    assert!(rt; bytes_come_back(rt.alloc(), b"same"));
}
