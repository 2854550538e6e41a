//! Pieces of a text: what stands between the bytes that end them.

ghost use Rattle.std.specs.Prelude.{◌≡◌, ◌<◌, ◌≤◌, ◌==◌, length};
ghost use Rattle.syn_lex.specs.Pieces.{before, IsCut};

/// The number of bytes before the first that has the value; all of them where none has.
pub fn bytes_before(bytes: &[u8], end: u8) -> usize
    ensures value { result ≡ before (λ b. b == end) bytes.now }
    ensures within { result ≤ length bytes.now }
{
    let place = bytes.iter().position(|byte| *byte == end);
    place.unwrap_or(bytes.len())
}

/// The first piece, before the first byte that has the value, and what stands behind that byte.
pub fn cut_piece(bytes: &[u8], end: u8) -> (&[u8], &[u8])
    requires { 0 < length bytes.now }
    ensures { IsCut end bytes.now result.0.now result.1.now }
{
    let (piece, rest) = bytes.split_at(bytes_before(bytes, end));
    if rest.is_empty() {
        return (piece, rest);
    }
    let (_, behind) = rest.split_at(1);
    (piece, behind)
}
