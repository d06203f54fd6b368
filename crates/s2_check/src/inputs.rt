//! The two parts of the checker's input.
ghost use Rattle.std.specs.Prelude.{◌≡◌, ◌<◌, ◌≤◌, length};
ghost use Rattle.s2_check.specs.Inputs.{is_mark, script_part, output_part};
ghost use Rattle.s2_check.specs.Sizes.{line_size};

#[tactic(auto, using(crate::proofs::Cuts::size_some, crate::proofs::Cuts::size_within))]
fn line_len(bytes: &[u8]) -> usize
    requires some { 0 < length bytes.now }
    ensures size { result ≡ line_size bytes.now }
    ensures some { 0 < result }
    ensures within { result ≤ length bytes.now }
{
    for (i, byte) in bytes.iter().enumerate() {
        if *byte == b'\n' {
            return i + 1;
        }
    }
    bytes.len()
}

fn is_mark(line: &[u8]) -> bool
    ensures { result ≡ is_mark line.now }
{
    line == b"==OUTPUT==\n".as_slice() || line == b"==OUTPUT==".as_slice()
}

/// The script, which is the input up to the first line that is exactly `==OUTPUT==`, and the output, which is what follows that line,
/// or nothing where there is no such line. It walks the input once.
pub fn split(text: &[u8]) -> (&[u8], &[u8])
    ensures script { result.0.now ≡ script_part text.now }
    ensures output { result.1.now ≡ output_part text.now }
{
    let mut at = 0;
    while at < text.len() {
        let (front, rest) = text.split_at(at);
        let (line, after) = rest.split_at(line_len(rest));
        if is_mark(line) {
            return (front, after);
        }
        at += line.len();
    }
    text.split_at(at)
}
