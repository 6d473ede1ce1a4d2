//! Blanks and comments, which stand between tokens.

ghost use Rattle.celf_lexer.specs.Gap as spec;
ghost use Rattle.std.specs.Prelude.{◌≡◌, ◌≤◌, length};

fn is_blank(byte: u8) -> bool
    ensures { result ≡ spec.is_blank byte }
{
    matches!(byte, b' ' | b'\t' | b'\r' | b'\n')
}

/// How many bytes of blanks and comments stand in front. A comment ends with its line.
pub(crate) fn gap_length(bytes: &[u8]) -> usize
    ensures value { result ≡ spec.gap bytes.now }
    ensures within { result ≤ length bytes.now }
{
    let mut in_comment = false;
    for (i, byte) in bytes.iter().enumerate() {
        if in_comment {
            in_comment = *byte != b'\n';
        } else if *byte == b'%' {
            in_comment = true;
        } else if !is_blank(*byte) {
            return i;
        }
    }
    bytes.len()
}
