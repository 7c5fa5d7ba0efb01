//! Bytes that are a text.

ghost use Rattle.std.specs.Prelude.{◌↔◌, IsTrue};
ghost use Rattle.dgt_names.specs.Names.{IsText};

/// Whether there is at least one byte, and each is a printable ASCII character.
pub fn is_text(bytes: &[u8]) -> bool
    ensures { IsTrue result ↔ IsText bytes.now }
{
    !bytes.is_empty() && bytes.iter().all(|byte| *byte >= 0x20 && *byte <= 0x7e)
}
