//! Keys that are numbered, and their digests.

use crate::keys::{NOTHING, SMALL};
use key_store::KeyStore;
use leg_key::digest;
use std::alloc::Global;
use std::test::Fail;

/// The numbers of two keys that are interned, one of them again after a third was taken back.
fn numbers(alloc: Global) -> Result<[usize; 4], Fail> {
    let mut store = KeyStore::new(alloc);
    let first = store.intern(&NOTHING)?;
    let second = store.intern(&SMALL)?;
    store.intern(&[])?;
    if store.count() < 2 {
        return Err(Fail::from("keys were lost"));
    }
    store.cut(2);
    let again = store.intern(&NOTHING)?;
    Ok([first, second, again, store.count()])
}

#[test]
fn equal_keys_have_one_number(rt: HostRuntime) -> Result<(), Fail> {
    let found = numbers(rt.alloc())?;
    assert!(rt; found == [0, 1, 0, 2]);
    Ok(())
}

/// The SHA-256 of the key of the leg without items.
const DIGEST: [u8; 32] = [
    129, 80, 166, 94, 133, 75, 155, 187, 213, 46, 239, 208, 72, 235, 2, 92, 118, 254, 72, 240, 71,
    92, 15, 148, 44, 157, 185, 237, 164, 10, 148, 195,
];

#[test]
fn digests_are_those_of_sha_256(rt: HostRuntime) {
    let found = digest(&NOTHING);
    assert!(rt; found == DIGEST);
}
