//! Standard streams that are closed.

use std::alloc::Global;
use std::fs;
use std::fs::File;
use std::os::fd::AsRawFd;

/// The number of the last standard stream.
const LAST_STREAM: i32 = 2;

/// Takes the numbers of standard streams that are closed, while the result is kept, so that no file that is opened later is written in
/// place of one. What it opens can be neither read nor written: it is a folder.
pub fn closed_streams(rt: &HostRuntime) -> Vec<File> {
    let mut taken = Vec::new(rt.alloc());
    for _ in 0..=LAST_STREAM {
        match fs::open(rt, "/") {
            Ok(file) if file.as_raw_fd() <= LAST_STREAM => {
                if taken.push(file).is_err() {
                    break;
                }
            }
            _ => break,
        }
    }
    taken
}
