ghost use Rattle.std.specs.Prelude.{◌≡◌, ◌++◌, OnOk};
ghost use Rattle.page.specs.Pages.{escaped, escaped_byte as byte_escaped};

use std::alloc::AllocError;

// Adds a byte of a text, as an entity if it could be taken for markup.
fn add_escaped_byte(bytes: &mut Vec<u8>, byte: u8) -> Result<(), AllocError>
    ensures { OnOk result (bytes.new.items ≡ bytes.old.items ++ byte_escaped byte) }
{
    match byte {
        b'<' => bytes.extend_from_slice(b"&lt;"),
        b'>' => bytes.extend_from_slice(b"&gt;"),
        b'&' => bytes.extend_from_slice(b"&amp;"),
        b'"' => bytes.extend_from_slice(b"&quot;"),
        _ => bytes.extend_from_slice(&[byte]),
    }
}

/// Adds a text with `<`, `>`, `&` and `"` as entities. No other function brings a text into a page.
pub fn add_escaped(bytes: &mut Vec<u8>, text: &str) -> Result<(), AllocError>
    ensures { OnOk result (bytes.new.items ≡ bytes.old.items ++ escaped text.now) }
{
    for byte in text.as_bytes() {
        add_escaped_byte(bytes, *byte)?;
    }
    Ok(())
}
