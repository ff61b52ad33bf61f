//! Known entries and roots: those of the Certificate Transparency test data.

use hex::FromHex;
use std::test::Fail;

pub const ENTRIES: [&[u8]; 8] = [
    b"",
    b"\x00",
    b"\x10",
    b"\x20\x21",
    b"\x30\x31",
    b"\x40\x41\x42\x43",
    b"\x50\x51\x52\x53\x54\x55\x56\x57",
    b"\x60\x61\x62\x63\x64\x65\x66\x67\x68\x69\x6a\x6b\x6c\x6d\x6e\x6f",
];

/// The path of the entry at 5 in the tree of 8.
pub const PATH_5_OF_8: &[&str] = &[
    "bc1a0643b12e4d2d7c77918f44e0f4f79a838b6cf9ec5b5c283e1f4d88599e6b",
    "ca854ea128ed050b41b35ffc1b87b8eb2bde461e9e3b5596ece6b9d5975a0ae0",
    "d37ee418976dd95753c1c73862b9398fa2a2cf9b4ff0fdfe8b30cd95209614b7",
];

/// The path of the entry at 2 in the tree of 3.
pub const PATH_2_OF_3: &[&str] = &[
    "fac54203e7cc696cf0dfcb42c92a1d9dbaf70ad9e621f4bd8d98662f00e3c125",
];

/// The first entries; all where there are no more.
pub fn first(count: usize) -> &'static [&'static [u8]] {
    ENTRIES.get(..count).unwrap_or(&ENTRIES)
}

/// The hash that the digits spell.
pub fn hash(digits: &str) -> Result<[u8; 32], Fail> {
    Ok(<[u8; 32] as FromHex>::from_hex(digits)?)
}

/// Whether the path has the hashes that the digits spell, and no others.
pub fn is_path(path: &[[u8; 32]], digits: &[&str]) -> Result<bool, Fail> {
    for (sibling, text) in path.iter().zip(digits) {
        if *sibling != hash(text)? {
            return Ok(false);
        }
    }
    Ok(path.len() == digits.len())
}

fn root_digits(count: usize) -> &'static str {
    match count {
        0 => "e3b0c44298fc1c149afbf4c8996fb92427ae41e4649b934ca495991b7852b855",
        1 => "6e340b9cffb37a989ca544e6bb780a2c78901d3fb33738768511a30617afa01d",
        2 => "fac54203e7cc696cf0dfcb42c92a1d9dbaf70ad9e621f4bd8d98662f00e3c125",
        3 => "aeb6bcfe274b70a14fb067a5e5578264db0fa9b51af5e0ba159158f329e06e77",
        5 => "4e3bbb1f7b478dcfe71fb631631519a3bca12c9aefca1612bfce4c13a86264d4",
        7 => "ddb89be403809e325750d3d263cd78929c2942b7942a34b77e122c9594a74c8c",
        8 => "5dc9da79a70659a9ad559cb701ded9a2ab9d823aad2f4960cfe370eff4604328",
        _ => "",
    }
}

/// The root of the first entries: 0, 1, 2, 3, 5, 7 or 8 of them.
pub fn root(count: usize) -> Result<[u8; 32], Fail> {
    hash(root_digits(count))
}
