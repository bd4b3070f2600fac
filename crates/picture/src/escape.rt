// Text as it stands in an XML document.
ghost use Rattle.std.specs.Prelude.{◌≡◌, ◌++◌, OnOk};
ghost use Rattle.picture.specs.Escape.{escaped_byte, escaped};

use std::alloc::AllocError;

// Appends what stands for a byte.
fn push_byte(out: &mut Vec<u8>, b: u8) -> Result<(), AllocError>
    ensures { OnOk result (out.new.items ≡ out.old.items ++ escaped_byte b) }
{
    match b {
        b'&' => out.extend_from_slice(b"&amp;")?,
        b'<' => out.extend_from_slice(b"&lt;")?,
        b'>' => out.extend_from_slice(b"&gt;")?,
        b'"' => out.extend_from_slice(b"&quot;")?,
        b' '..=b'~' => out.extend_from_slice(&[b])?,
        _ => out.extend_from_slice(b"?")?,
    }
    Ok(())
}

// Appends a text as it stands in an XML document, each byte by what stands for it.
pub fn push_escaped(out: &mut Vec<u8>, text: &[u8]) -> Result<(), AllocError>
    ensures { OnOk result (out.new.items ≡ out.old.items ++ escaped text.now) }
{
    for b in text {
        push_byte(out, *b)?;
    }
    Ok(())
}
