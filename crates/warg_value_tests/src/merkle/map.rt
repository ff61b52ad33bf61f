//! Sparse maps of a few keys, with roots that another program computed.

use crate::merkle::known::hash;
use sha2::{Digest, Sha256};
use std::alloc::{AllocError, Global};
use std::test::Fail;
use warg_merkle::node_hash;
use warg_merkle::sparse_map::{verify_absence, verify_entry};

// The roots of an empty map, of each height below 256.
fn empty_roots(alloc: Global) -> Result<Vec<[u8; 32]>, AllocError> {
    let mut roots = Vec::new(alloc);
    let mut root = Sha256::digest(b"");
    for _ in 0..256 {
        roots.push(root)?;
        root = node_hash(&root, &root);
    }
    Ok(roots)
}

#[test]
fn nothing_is_in_the_empty_map(rt: HostRuntime) -> Result<(), Fail> {
    let root = hash("dfbe207a8b9bb8228d1b300ba7f792cb99b47a5de57a206926b4632d0f1195fe")?;
    let mut path = empty_roots(rt.alloc())?;
    let key = Sha256::digest(b"a");
    assert!(rt; verify_absence(&key, &path, &root));
    assert!(rt; verify_absence(&[0xff; 32], &path, &root));
    assert!(rt; !verify_entry(&key, b"1", &path, &root));
    path.push([0; 32])?;
    assert!(rt; !verify_absence(&key, &path, &root));
    let _ = path.pop();
    let _ = path.pop();
    assert!(rt; !verify_absence(&key, &path, &root));
    Ok(())
}

#[test]
fn a_map_of_one_key(rt: HostRuntime) -> Result<(), Fail> {
    let root = hash("5de8c4834b8a6544cc3c7a2fd5b719f4c1aae74712bd0513c4686f157f30aac1")?;
    let path = empty_roots(rt.alloc())?;
    let key = Sha256::digest(b"a");
    assert!(rt; verify_entry(&key, b"1", &path, &root));
    assert!(rt; !verify_entry(&key, b"2", &path, &root));
    assert!(rt; !verify_absence(&key, &path, &root));
    assert!(rt; !verify_absence(&Sha256::digest(b"b"), &path, &root));
    Ok(())
}
