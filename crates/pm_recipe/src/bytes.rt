//! How texts begin, and the letters of flags.
ghost use Rattle.std.specs.Prelude.{◌≡◌};
ghost use Rattle.pm_recipe.specs.Bytes.{is_flag_letter, begins_with};

// Each letter of a flag (procmailrc(5), "Recipe format").
const FLAGS: &[u8] = b"HBDhbfcwWirAaEe";

/// Whether a text begins with this byte.
pub fn starts_with(wanted: u8, text: &[u8]) -> bool
    ensures { result ≡ begins_with wanted text.now }
{
    match text {
        [] => false,
        [byte, ..] => *byte == wanted,
    }
}

/// Whether the byte is one of the letters of flags.
pub fn is_flag(byte: u8) -> bool
    ensures { result ≡ is_flag_letter byte }
{
    FLAGS.contains(&byte)
}
