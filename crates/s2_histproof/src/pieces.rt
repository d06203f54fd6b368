//! The pieces of a text: words, numbers, and lists of what has a text of its own.
ghost use Rattle.std.specs.Prelude.{codes, ℕ, List, ◌≡◌, ◌++◌, ◌<◌, OnOk};
ghost use Rattle.std.specs.List.{flat_map};
ghost use Rattle.std.specs.Fmt.{decimal};
ghost use Rattle.s2_value.specs.RowText.{separated};
ghost use Rattle.s2_model.specs.OutputText.{field, hex_digit, hex_byte, digest_field};

use itoa::Buffer;
use s2_value::{Digest, Memory};

/// What has a text in the output.
pub(crate) trait Printed {
    ghost text: { Self → List ℕ };

    /// Writes its text at the end of `out`.
    fn put(&self, out: &mut Vec<u8>) -> Result<(), Memory>
        ensures { OnOk result (out.new.items ≡ out.old.items ++ text self.now) };
}

/// A number of a list stands after a space.
impl Printed for u64 {
    ghost text = { field };

    fn put(&self, out: &mut Vec<u8>) -> Result<(), Memory> {
        put_field(out, *self)
    }
}

/// A number of a list stands after a space.
impl Printed for u32 {
    ghost text = { field };

    fn put(&self, out: &mut Vec<u8>) -> Result<(), Memory> {
        put_field(out, u64::from(*self))
    }
}

/// Writes these bytes.
pub(crate) fn put(out: &mut Vec<u8>, piece: &[u8]) -> Result<(), Memory>
    ensures { OnOk result (out.new.items ≡ out.old.items ++ piece.now) }
{
    out.extend_from_slice(piece)
}

/// Writes a number.
pub(crate) fn put_number(out: &mut Vec<u8>, number: u64) -> Result<(), Memory>
    ensures { OnOk result (out.new.items ≡ out.old.items ++ decimal number) }
{
    put(out, Buffer::new().format(number).as_bytes())
}

/// Writes a number after a space.
pub(crate) fn put_field(out: &mut Vec<u8>, number: u64) -> Result<(), Memory>
    ensures { OnOk result (out.new.items ≡ out.old.items ++ field number) }
{
    put(out, b" ")?;
    put_number(out, number)
}

/// Writes two numbers, each after a space.
pub(crate) fn put_pair(out: &mut Vec<u8>, first: u64, second: u64) -> Result<(), Memory>
    ensures { OnOk result (out.new.items ≡ out.old.items ++ (field first ++ field second)) }
{
    put_field(out, first)?;
    put_field(out, second)
}

/// Writes a word and its number.
pub(crate) fn put_word(out: &mut Vec<u8>, word: &[u8], number: u64) -> Result<(), Memory>
    ensures { OnOk result (out.new.items ≡ out.old.items ++ (word.now ++ field number)) }
{
    put(out, word)?;
    put_field(out, number)
}

/// Writes a word and its items one behind the other.
pub(crate) fn put_list<T: Printed>(
    out: &mut Vec<u8>,
    word: &[u8],
    items: &[T],
) -> Result<(), Memory>
    ensures { OnOk result (out.new.items ≡ out.old.items ++ (word.now ++ flat_map T.text items.now)) }
{
    put(out, word)?;
    put_each(out, items)
}

/// Writes items one behind the other.
pub(crate) fn put_each<T: Printed>(out: &mut Vec<u8>, items: &[T]) -> Result<(), Memory>
    ensures { OnOk result (out.new.items ≡ out.old.items ++ flat_map T.text items.now) }
{
    for item in items {
        item.put(out)?;
    }
    Ok(())
}

/// Writes items with a comma and a space between each two.
pub(crate) fn put_separated<T: Printed>(out: &mut Vec<u8>, items: &[T]) -> Result<(), Memory>
    ensures { OnOk result (out.new.items ≡ out.old.items ++ separated (codes ", ") T.text items.now) }
{
    let [first, later @ ..] = items else {
        return Ok(());
    };
    first.put(out)?;
    put_later(out, later)
}

fn put_later<T: Printed>(out: &mut Vec<u8>, items: &[T]) -> Result<(), Memory>
    ensures { OnOk result (out.new.items ≡ out.old.items ++ flat_map (λ item. codes ", " ++ T.text item) items.now) }
{
    for item in items {
        put(out, b", ")?;
        item.put(out)?;
    }
    Ok(())
}

/// Writes a digest after a space: two lower-case hexadecimal digits for each byte.
pub(crate) fn put_digest(out: &mut Vec<u8>, digest: &Digest) -> Result<(), Memory>
    ensures { OnOk result (out.new.items ≡ out.old.items ++ digest_field digest.now) }
{
    put(out, b" ")?;
    put_hex(out, digest.bytes())
}

fn put_hex(out: &mut Vec<u8>, bytes: &[u8]) -> Result<(), Memory>
    ensures { OnOk result (out.new.items ≡ out.old.items ++ flat_map hex_byte bytes.now) }
{
    for byte in bytes {
        put_hex_byte(out, *byte)?;
    }
    Ok(())
}

fn put_hex_byte(out: &mut Vec<u8>, byte: u8) -> Result<(), Memory>
    ensures { OnOk result (out.new.items ≡ out.old.items ++ hex_byte byte) }
{
    put(out, &[hex_digit(byte / 16), hex_digit(byte % 16)])
}

fn hex_digit(digit: u8) -> u8
    requires { digit < 16 }
    ensures { result ≡ hex_digit digit }
{
    if digit < 10 {
        b'0' + digit
    } else {
        b'a' + (digit - 10)
    }
}
