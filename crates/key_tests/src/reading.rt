//! Keys that are read, and bytes that are none.

use crate::keys::{LARGE, NOTHING, SMALL};
use key_reader::read_key;
use leg_key::encode;
use std::alloc::Global;
use std::test::Fail;

/// Whether the bytes are read as a leg whose key they are, or else whether they are refused.
fn is_key(alloc: Global, bytes: &[u8]) -> Result<Option<bool>, Fail> {
    match read_key(alloc, bytes)? {
        Some(leg) => {
            let key = encode(alloc, &leg)?;
            Ok(Some(key.as_slice() == bytes))
        }
        None => Ok(None),
    }
}

/// Whether each front of a key is refused, and the key with one byte more.
fn are_cuts_refused(alloc: Global, key: &[u8]) -> Result<bool, Fail> {
    for count in 0..key.len() {
        if is_key(alloc, &key[..count])?.is_some() {
            return Ok(false);
        }
    }
    let mut longer = Vec::from_slice(alloc, key)?;
    longer.push(0)?;
    Ok(is_key(alloc, &longer)?.is_none())
}

/// The key with another byte at a place.
fn with_byte(alloc: Global, key: &[u8], at: usize, byte: u8) -> Result<Vec<u8>, Fail> {
    let mut changed = Vec::from_slice(alloc, key)?;
    if let Some(place) = changed.get_mut(at) {
        *place = byte;
    }
    Ok(changed)
}

/// Whether the key with any byte up to that one in any place is refused, or is the key of the leg that is read. Also how
/// many are read.
fn reads_of_changed(alloc: Global, key: &[u8], most: u8) -> Result<(bool, u64), Fail> {
    let mut read: u64 = 0;
    for at in 0..key.len() {
        for byte in 0..=most {
            let changed = with_byte(alloc, key, at, byte)?;
            match is_key(alloc, &changed)? {
                Some(true) => read = read.saturating_add(1),
                Some(false) => return Ok((false, read)),
                None => {}
            }
        }
    }
    Ok((true, read))
}

#[test]
fn keys_are_read_back(rt: HostRuntime) -> Result<(), Fail> {
    let alloc = rt.alloc();
    for key in [&NOTHING[..], &SMALL[..], &LARGE[..]] {
        let found = is_key(alloc, key)?;
        assert!(rt; found == Some(true));
        let refused = are_cuts_refused(alloc, key)?;
        assert!(rt; refused);
    }
    Ok(())
}

#[test]
fn changed_keys_are_refused_or_those_of_other_legs(rt: HostRuntime) -> Result<(), Fail> {
    let alloc = rt.alloc();
    // Only the bytes as they are.
    let (is_well, read) = reads_of_changed(alloc, &NOTHING, 255)?;
    assert!(rt; is_well && read == 13);
    let (is_well, read) = reads_of_changed(alloc, &SMALL, 255)?;
    assert!(rt; is_well && read > 60);
    // All the codes, and some bytes behind them.
    let (is_well, _) = reads_of_changed(alloc, &LARGE, 31)?;
    assert!(rt; is_well);
    Ok(())
}

/// Lists that claim 2^32 - 1 members: of records, of variables and of items.
const ENDLESS: [&[u8]; 4] = [
    &[1, 255, 255, 255, 255],
    &[1, 0, 0, 0, 0, 255, 255, 255, 255, 0, 0, 0],
    &[1, 0, 0, 0, 0, 0, 0, 0, 0, 255, 255, 255, 255, 0, 1],
    &[
        1, 0, 0, 0, 0, 0, 0, 0, 0, 0, 0, 0, 1, 3, 255, 255, 255, 255, 0, 0, 0, 0,
    ],
];

#[test]
fn counts_beyond_the_bytes_are_refused(rt: HostRuntime) -> Result<(), Fail> {
    for key in ENDLESS {
        let found = is_key(rt.alloc(), key)?;
        assert!(rt; found.is_none());
    }
    Ok(())
}

/// A leg that assumes a claim of so many parts one inside another: these bytes so often, and then T.
fn tower(alloc: Global, front: &[u8], times: u32) -> Result<Vec<u8>, Fail> {
    let mut key = Vec::from_slice(alloc, &[1, 0, 0, 0, 0, 0, 0, 0, 0, 0, 0, 0, 1, 0])?;
    for _ in 0..times {
        key.extend_from_slice(front)?;
    }
    key.push(1)?;
    Ok(key)
}

/// Whether a claim of 2,203 parts one inside another is read, and one of 2,204 refused.
fn is_limit(alloc: Global, front: &[u8]) -> Result<bool, Fail> {
    let least = is_key(alloc, &tower(alloc, front, 2202)?)?;
    let most = is_key(alloc, &tower(alloc, front, 2203)?)?;
    Ok(least == Some(true) && most.is_none())
}

#[test]
fn deep_claims_are_read_up_to_the_limit(rt: HostRuntime) -> Result<(), Fail> {
    let alloc = rt.alloc();
    // A negation, an operator with its second part last, an update and a quantified claim.
    let fronts: [&[u8]; 4] = [&[7], &[13, 2], &[21, 2, 2], &[26, 1, 1]];
    for front in fronts {
        let found = is_limit(alloc, front)?;
        assert!(rt; found);
    }
    Ok(())
}
