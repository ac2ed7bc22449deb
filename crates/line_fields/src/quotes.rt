ghost use Rattle.std.specs.Prelude.{◌≡◌};
ghost use Rattle.csv.specs.Writing.{default_writer, needs_quotes};

/// Whether `csv`'s default writer writes a field in quotes.
pub fn needs_quotes(field: &[u8]) -> bool
    ensures { result ≡ needs_quotes default_writer field.now }
{
    for byte in field {
        if *byte == b',' || *byte == b'"' || *byte == b'\r' || *byte == b'\n' {
            return true;
        }
    }
    false
}
