use std::fs;
use std::os::unix::fs::{FileTypeExt, MetadataExt};
use std::rt::Files;

/// The name by which the system knows what standard input is.
pub const STANDARD_INPUT: &str = "/dev/stdin";

/// The name by which the system knows what standard error is.
pub const STANDARD_ERROR: &str = "/dev/stderr";

// Whether a device of this number is a terminal: a console or serial line, which drivers 4 and 5 have on
// Linux, or a pseudo-terminal, which drivers 136 to 143 have.
fn is_terminal_number(device: u64) -> bool {
    let driver = device / 256 % 4096;
    driver == 4 || driver == 5 || 136 <= driver && driver <= 143
}

/// Returns whether what has this name is a terminal.
pub fn is_terminal(rt: &impl Files, name: &str) -> bool {
    match fs::metadata(rt, name) {
        Ok(metadata) => {
            metadata.file_type().is_char_device() && is_terminal_number(metadata.rdev())
        }
        Err(_) => false,
    }
}
