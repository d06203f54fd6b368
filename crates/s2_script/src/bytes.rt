//! The bytes of a line.
ghost use Rattle.std.specs.Prelude.{◌≡◌, ◌≤◌, ◌<◌, ◌∷◌, length};
ghost use Rattle.std.specs.List.{prefix_len};
ghost use Rattle.std.specs.Str.{is_utf8};
ghost use Rattle.s2_token.specs.Lexing.{is_blank};
ghost use Rattle.s2_script.specs.Lines.{after_blanks, is_comment, is_empty, is_inside, lines_of, without_return};

fn is_blank(byte: u8) -> bool
    ensures { result ≡ is_blank byte }
{
    byte == b' ' || byte == b'\t'
}

fn after_blanks(bytes: &[u8]) -> &[u8]
    ensures { result.now ≡ after_blanks bytes.now }
{
    let mut left = bytes;
    while let [byte, rest @ ..] = left {
        if !is_blank(*byte) {
            return left;
        }
        left = rest;
    }
    left
}

fn is_comment(bytes: &[u8]) -> bool
    ensures { result ≡ is_comment bytes.now }
{
    match bytes {
        [] => true,
        [_] => false,
        [a, b, ..] => *a == b'-' && *b == b'-',
    }
}

/// Whether a line has only spaces and tabs, or `--` after them.
pub fn is_empty(line: &[u8]) -> bool
    ensures { result ≡ is_empty line.now }
{
    is_comment(after_blanks(line))
}

/// Whether the bytes are UTF-8.
pub fn is_text(bytes: &[u8]) -> bool
    ensures { result ≡ is_utf8 bytes.now }
{
    std::str::from_utf8(bytes).is_ok()
}

/// Without one 0x0D at the end.
#[tactic(auto, using(crate::proofs::LineCuts::return_dropped, crate::proofs::LineCuts::no_return))]
pub fn without_return(line: &[u8]) -> &[u8]
    ensures { result.now ≡ without_return line.now }
{
    let count = line.len();
    if count == 0 {
        return line;
    }
    if line[count - 1] == b'\r' {
        line.split_at(count - 1).0
    } else {
        line
    }
}

fn line_len(bytes: &[u8]) -> usize
    ensures value { result ≡ prefix_len is_inside bytes.now }
    ensures within { result ≤ length bytes.now }
{
    for (i, byte) in bytes.iter().enumerate() {
        if *byte == b'\n' {
            return i;
        }
    }
    bytes.len()
}

/// The first line without its end, and the bytes after its end.
pub fn cut(bytes: &[u8]) -> (&[u8], &[u8])
    requires some { 0 < length bytes.now }
    ensures first { lines_of bytes.now ≡ result.0.now ∷ lines_of result.1.now }
    ensures shorter { length result.1.now < length bytes.now }
{
    let (line, rest) = bytes.split_at(line_len(bytes));
    if rest.is_empty() {
        (line, rest)
    } else {
        (line, rest.split_at(1).1)
    }
}
