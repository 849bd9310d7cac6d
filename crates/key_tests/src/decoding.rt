//! Keys of well-formed legs, and bytes that are the key of none.

use crate::keys::{NOTHING, SMALL};
use leg_key::{decode, encode};
use std::alloc::Global;
use std::test::Fail;

/// Whether the bytes are the key of a well-formed leg, which gives them back.
fn has_leg(alloc: Global, bytes: &[u8]) -> Result<bool, Fail> {
    match decode(alloc, bytes)? {
        Some(leg) => {
            let key = encode(alloc, &leg)?;
            Ok(key.as_slice() == bytes)
        }
        None => Ok(false),
    }
}

/// The record of the first variable has a field of the record before it.
const NESTED: [u8; 46] = [
    1, 0, 0, 0, 2, 0, 0, 0, 1, 1, 0, 0, 0, 1, 3, 0, 0, 0, 0, 0, 0, 0, 2, 3, 0, 0, 0, 1, 0, 0, 0, 0,
    1, 3, 0, 0, 0, 2, 0, 0, 0, 0, 0, 0, 0, 1,
];

#[test]
fn legs_of_keys_are_read(rt: HostRuntime) -> Result<(), Fail> {
    let alloc = rt.alloc();
    for key in [&NOTHING[..], &SMALL[..], &NESTED[..]] {
        let found = has_leg(alloc, key)?;
        assert!(rt; found);
    }
    Ok(())
}

/// Bytes that are read, but as a leg that is not well formed.
const ILL_FORMED: [&[u8]; 7] = [
    // A variable that does not appear.
    &[1, 0, 0, 0, 0, 0, 0, 0, 1, 0, 0, 0, 0, 0],
    // A record that does not appear.
    &[1, 0, 0, 0, 1, 0, 0, 0, 0, 0, 0, 0, 0, 0, 0, 0, 0],
    // The second variable before the first.
    &[
        1, 0, 0, 0, 0, 0, 0, 0, 2, 0, 0, 0, 0, 0, 1, 3, 0, 0, 0, 2, 0, 0, 0, 1, 0, 0, 0, 0,
    ],
    // A sequence of sequences.
    &[
        1, 0, 0, 0, 0, 0, 0, 0, 1, 2, 2, 0, 0, 0, 0, 1, 3, 0, 0, 0, 1, 0, 0, 0, 0,
    ],
    // A record that holds itself.
    &[
        1, 0, 0, 0, 1, 0, 0, 0, 1, 3, 0, 0, 0, 0, 0, 0, 0, 1, 3, 0, 0, 0, 0, 0, 0, 0, 1, 3, 0, 0,
        0, 1, 0, 0, 0, 0,
    ],
    // The records of the nested one exchanged.
    &[
        1, 0, 0, 0, 2, 0, 0, 0, 1, 3, 0, 0, 0, 1, 0, 0, 0, 1, 1, 0, 0, 0, 2, 3, 0, 0, 0, 0, 0, 0,
        0, 0, 1, 3, 0, 0, 0, 2, 0, 0, 0, 0, 0, 0, 0, 1,
    ],
    // A number that is assumed.
    &[
        1, 0, 0, 0, 0, 0, 0, 0, 0, 0, 0, 0, 1, 0, 0, 0, 0, 0, 0, 0, 0, 0, 0, 0, 0, 0, 0, 0, 0, 0, 0,
    ],
];

#[test]
fn ill_formed_legs_have_no_key(rt: HostRuntime) -> Result<(), Fail> {
    for bytes in ILL_FORMED {
        let found = has_leg(rt.alloc(), bytes)?;
        assert!(rt; !found);
    }
    Ok(())
}

/// Whether the key has no leg with 255 in place of any of its bytes.
fn are_spoiled(alloc: Global, key: &[u8]) -> Result<bool, Fail> {
    for at in 0..key.len() {
        let mut spoiled = Vec::from_slice(alloc, key)?;
        if let Some(place) = spoiled.get_mut(at) {
            *place = 255;
        }
        if decode(alloc, &spoiled)?.is_some() {
            return Ok(false);
        }
    }
    Ok(true)
}

#[test]
fn spoiled_and_cut_keys_have_no_leg(rt: HostRuntime) -> Result<(), Fail> {
    let alloc = rt.alloc();
    let spoiled = are_spoiled(alloc, &NOTHING)?;
    assert!(rt; spoiled);
    for count in 0..NOTHING.len() {
        let found = has_leg(alloc, &NOTHING[..count])?;
        assert!(rt; !found);
    }
    Ok(())
}
