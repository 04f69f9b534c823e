ghost use Rattle.std.specs.Prelude.{◌≡◌, ◌++◌, ◌<◌, OnOk};
ghost use Rattle.casbench.specs.Names.{hex_digit, shown_byte, shown_name};

use std::alloc::AllocError;

// Returns a hexadecimal digit.
fn hex_digit(n: u8) -> u8
    requires { n < 16 }
    ensures { result ≡ hex_digit n }
{
    if n < 10 { b'0' + n } else { b'a' - 10 + n }
}

// Adds a byte of a name; a control character as `\xHH`.
fn add_shown_byte(bytes: &mut Vec<u8>, byte: u8) -> Result<(), AllocError>
    ensures { OnOk result (bytes.new.items ≡ bytes.old.items ++ shown_byte byte) }
{
    if byte < 32 || byte == 127 {
        bytes.extend_from_slice(&[b'\\', b'x', hex_digit(byte / 16), hex_digit(byte % 16)])
    } else {
        bytes.extend_from_slice(&[byte])
    }
}

/// Adds the name of a file; control characters as `\xHH`, so that it stays on its line.
pub fn add_shown(bytes: &mut Vec<u8>, name: &str) -> Result<(), AllocError>
    ensures { OnOk result (bytes.new.items ≡ bytes.old.items ++ shown_name name.now) }
{
    for byte in name.as_bytes() {
        add_shown_byte(bytes, *byte)?;
    }
    Ok(())
}
