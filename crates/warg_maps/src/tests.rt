use super::buckets::Slot;
use super::index::{Further, Index};
use super::*;
use std::hash::{DefaultHasher, Hash, Hasher};
use std::string::String;
use std::test::*;

/// A name of 32 bytes. Those that are hostile have one hash, whatever their last eight letters.
fn name(rt: &HostRuntime, number: usize, hostile: bool) -> Result<String, Fail> {
    let mut name = String::from_str(rt.alloc(), "aaaaaaaacygosaaavksamkg")?;
    name.push(if hostile { 'c' } else { 'd' })?;
    let mut left = number;
    for _ in 0..8 {
        name.push((97 + (left % 26) as u8) as char)?;
        left /= 26;
    }
    Ok(name)
}

/// Hostile names whose other hashes end in seven bits of zero, so that they share a second bucket too.
fn twice_hostile(rt: &HostRuntime, len: usize) -> Result<Vec<String>, Fail> {
    let mut names = Vec::new(rt.alloc());
    for number in 0..1_000_000_usize {
        if names.len() >= len {
            return Ok(names);
        }
        let tried = name(rt, number, true)?;
        let mut hasher = DefaultHasher::new();
        tried.hash(&mut hasher);
        if hasher.finish() & 127 == 0 {
            names.push(tried)?;
        }
    }
    Ok(names)
}

/// A map from so many names to their numbers.
fn map_of(rt: &HostRuntime, len: usize, hostile: bool) -> Result<NameMap<String, usize>, Fail> {
    let mut map = NameMap::new(rt.alloc());
    for number in 0..len {
        map.insert(name(rt, number, hostile)?, number)?;
    }
    Ok(map)
}

/// How many places the map has in its tree of hashes, and in that of keys.
fn in_trees(map: &NameMap<String, usize>) -> (usize, usize) {
    match &map.index.further {
        Some(further) => (further.far.len(), further.crowd.len()),
        None => (0, 0),
    }
}

#[test]
fn finds_names_of_one_hash(rt: HostRuntime) -> Result<(), Fail> {
    let map = map_of(&rt, 2000, true)?;
    assert_eq!(rt; map.len(), 2000);
    for number in 0..2000_usize {
        assert_eq!(rt; map.get(&name(&rt, number, true)?).copied(), Some(number));
    }
    assert_eq!(rt; map.get(&name(&rt, 2000, true)?), None);
    assert_eq!(rt; map.get(&name(&rt, 7, false)?), None);
    Ok(())
}

#[test]
fn names_of_one_hash_have_one_near_bucket(rt: HostRuntime) -> Result<(), Fail> {
    let map = map_of(&rt, 2000, true)?;
    assert_eq!(rt; map.index.count_further(), 1992);
    assert_eq!(rt; in_trees(&map).1, 0);
    assert!(rt; !map.index.lacks_places);
    Ok(())
}

#[test]
fn finds_names_that_fill_a_second_bucket(rt: HostRuntime) -> Result<(), Fail> {
    let names = twice_hostile(&rt, 200)?;
    let mut map = NameMap::new(rt.alloc());
    let mut number = 0_usize;
    for name in names.iter() {
        map.insert(name.clone()?, number)?;
        number = number.wrapping_add(1);
    }
    assert!(rt; in_trees(&map).0 > 100);
    assert_eq!(rt; in_trees(&map).1, 0);
    number = 0;
    for name in names.iter() {
        assert_eq!(rt; map.get(name).copied(), Some(number));
        number = number.wrapping_add(1);
    }
    assert_eq!(rt; map.get(&name(&rt, 3, false)?), None);
    Ok(())
}

#[test]
fn finds_keys_of_one_whole_hash(rt: HostRuntime) -> Result<(), Fail> {
    let mut keys = Vec::new(rt.alloc());
    for number in 0..3_usize {
        keys.push(name(&rt, number, false)?)?;
    }
    let mut further = Further::new(rt.alloc());
    for place in 0..keys.len().min(3) {
        assert!(rt; further.add_second(77, &keys[place], place));
    }
    assert_eq!(rt; further.far.len(), 1);
    assert_eq!(rt; further.crowd.len(), 2);
    for place in 0..keys.len() {
        assert_eq!(rt;
            further.find_second(keys.as_slice(), 77, &keys[place]),
            Some(place)
        );
    }
    assert_eq!(rt;
        further.find_second(keys.as_slice(), 77, &name(&rt, 3, false)?),
        None
    );
    assert_eq!(rt;
        further.find_second(keys.as_slice(), 78, &name(&rt, 0, false)?),
        None
    );
    Ok(())
}

#[test]
fn finds_keys_that_have_no_place(rt: HostRuntime) -> Result<(), Fail> {
    let mut keys = Vec::new(rt.alloc());
    for number in 0..3_usize {
        keys.push(name(&rt, number, false)?)?;
    }
    let mut index = Index::new(rt.alloc());
    for place in 100..108_u32 {
        index.near.push(Slot { hash: 7, place })?;
    }
    for place in 0..keys.len() {
        assert_eq!(rt; index.search(keys.as_slice(), 7, &keys[place]).0, None);
    }
    index.lacks_places = true;
    for place in 0..keys.len() {
        assert_eq!(rt;
            index.search(keys.as_slice(), 7, &keys[place]).0,
            Some(place)
        );
    }
    let other = name(&rt, 3, false)?;
    assert_eq!(rt; index.search(keys.as_slice(), 7, &other).0, None);
    Ok(())
}

#[test]
fn few_keys_have_no_buckets(rt: HostRuntime) -> Result<(), Fail> {
    for count in 0..7_usize {
        let mut map = map_of(&rt, count, true)?;
        assert!(rt; map.index.has_no_buckets() == (count < 5));
        for number in 0..count {
            assert_eq!(rt; map.get(&name(&rt, number, true)?).copied(), Some(number));
        }
        assert_eq!(rt; map.get(&name(&rt, count, true)?), None);
        assert_eq!(rt; map.insert(name(&rt, 0, true)?, 10)?.is_some(), count > 0);
        assert!(rt; map.clone()? == map);
    }
    Ok(())
}

#[test]
fn keeps_the_order(rt: HostRuntime) -> Result<(), Fail> {
    let mut map = map_of(&rt, 100, false)?;
    assert_eq!(rt; map.insert(name(&rt, 3, false)?, 1000)?, Some(3));
    let mut number = 0_usize;
    for (key, value) in map.iter() {
        assert!(rt; *key == name(&rt, number, false)?);
        assert_eq!(rt; *value, if number == 3 { 1000 } else { number });
        number = number.wrapping_add(1);
    }
    assert_eq!(rt; number, 100);
    Ok(())
}

#[test]
fn iterates_from_both_ends(rt: HostRuntime) -> Result<(), Fail> {
    let map = map_of(&rt, 3, true)?;
    let mut entries = map.iter();
    assert_eq!(rt; entries.len(), 3);
    assert!(rt; entries.next_back() == Some((&name(&rt, 2, true)?, &2)));
    assert!(rt; entries.next() == Some((&name(&rt, 0, true)?, &0)));
    assert!(rt; entries.clone()?.next() == Some((&name(&rt, 1, true)?, &1)));
    assert!(rt; entries.next_back() == Some((&name(&rt, 1, true)?, &1)));
    assert!(rt; entries.next().is_none());
    let mut values = map.values();
    assert_eq!(rt; values.next_back().copied(), Some(2));
    assert_eq!(rt; values.next().copied(), Some(0));
    assert_eq!(rt; values.len(), 1);
    assert_eq!(rt; values.as_slice()[0], 1);
    Ok(())
}

#[test]
fn a_text_stands_for_a_key(rt: HostRuntime) -> Result<(), Fail> {
    let mut doors = NameMap::new(rt.alloc());
    doors.insert(String::from_str(rt.alloc(), "north")?, 7)?;
    doors.insert(String::from_str(rt.alloc(), "south")?, 8)?;
    if let Some(door) = doors.get_mut("south") {
        *door = 9;
    }
    assert_eq!(rt; doors.get("south").copied(), Some(9));
    assert_eq!(rt; doors.get_index_of("south"), Some(1));
    assert_eq!(rt; doors.get("west"), None);
    Ok(())
}

#[test]
fn appends_and_copies(rt: HostRuntime) -> Result<(), Fail> {
    let mut map = map_of(&rt, 50, true)?;
    let mut other = map_of(&rt, 90, true)?;
    let before = other.clone()?;
    map.append(&mut other)?;
    assert!(rt; other.is_empty());
    assert!(rt; map == before);
    assert_eq!(rt; map.len(), 90);
    for number in 0..90_usize {
        assert_eq!(rt; map.get_index_of(&name(&rt, number, true)?), Some(number));
        assert_eq!(rt;
            before.get_index_of(&name(&rt, number, true)?),
            Some(number)
        );
    }
    Ok(())
}

#[test]
fn retains_what_passes(rt: HostRuntime) -> Result<(), Fail> {
    let mut map = map_of(&rt, 300, true)?;
    map.retain(|_: &String, value: &mut usize| -> bool {
        *value = value.wrapping_add(1000);
        *value % 3 == 0
    });
    assert_eq!(rt; map.len(), 100);
    for number in 0..300_usize {
        let kept = number % 3 == 2;
        let found = map.get(&name(&rt, number, true)?).copied();
        assert_eq!(rt;
            found,
            if kept {
                Some(number.wrapping_add(1000))
            } else {
                None
            }
        );
    }
    assert_eq!(rt; map.insert(name(&rt, 0, true)?, 7)?, None);
    assert_eq!(rt; map.get(&name(&rt, 0, true)?).copied(), Some(7));
    Ok(())
}

#[test]
fn compares_in_any_order(rt: HostRuntime) -> Result<(), Fail> {
    let map = map_of(&rt, 40, true)?;
    let mut other = NameMap::new(rt.alloc());
    for number in 0..40_usize {
        other.insert(
            name(&rt, 39_usize.wrapping_sub(number), true)?,
            39_usize.wrapping_sub(number),
        )?;
    }
    assert!(rt; map == other);
    other.insert(name(&rt, 5, true)?, 6)?;
    assert!(rt; map != other);
    Ok(())
}

#[test]
fn a_set_has_each_once(rt: HostRuntime) -> Result<(), Fail> {
    let mut set = NameSet::new(rt.alloc());
    for number in 0..2000_usize {
        assert!(rt; set.insert(name(&rt, number, true)?)?);
    }
    for number in 0..2000_usize {
        assert!(rt; !set.insert(name(&rt, number, true)?)?);
        assert!(rt; set.contains(&name(&rt, number, true)?));
    }
    assert_eq!(rt; set.len(), 2000);
    assert!(rt; !set.contains(&name(&rt, 2000, true)?));
    let copy = set.clone()?;
    assert!(rt; copy == set);
    Ok(())
}
