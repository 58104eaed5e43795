//! The descriptors of standard input, output and error, where the program was started without them.

use std::fs::File;
use std::mem::drop;
use std::os::fd::AsRawFd;
use std::rt::Files;

/// The number of standard error, the highest of the three.
const STANDARD_ERROR: i32 = 2;

/// What stands for standard descriptors that were closed, as long as it is kept: the null device. So no
/// socket gets their number, and nothing that is printed reaches a client.
#[derive(Drop)]
pub struct StandardDescriptors {
    pub input: Option<File>,
    pub output: Option<File>,
    pub error: Option<File>,
}

/// The null device, where the lowest free descriptor is a standard one.
fn null_device<R: Files<File = File>>(rt: &R) -> Option<File> {
    let mut options = File::options();
    options.read(true).write(true);
    let Ok(file) = options.open(rt, "/dev/null") else {
        return None;
    };
    if file.as_raw_fd() <= STANDARD_ERROR {
        Some(file)
    } else {
        drop(file);
        None
    }
}

/// Opens the null device for each standard descriptor that is closed.
pub fn hold_standard_descriptors<R: Files<File = File>>(rt: &R) -> StandardDescriptors {
    StandardDescriptors {
        input: null_device(rt),
        output: null_device(rt),
        error: null_device(rt),
    }
}
