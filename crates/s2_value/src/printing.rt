//! How a row is written: its values between parentheses, texts between quotes.
ghost use Rattle.std.specs.Prelude.{codes, ◌≡◌, ◌++◌, ◌∷◌, [], OnOk, OnErr, take, length};
ghost use Rattle.std.specs.List.{flat_map};
ghost use Rattle.std.specs.Fmt.{signed_decimal};
ghost use Rattle.s2_value.specs.RowText.{row_text, value_text, text_text, quoted_byte, values_text};

use crate::{Memory, Row, Value};
use itoa::Buffer;

fn put(out: &mut Vec<u8>, piece: &[u8]) -> Result<(), Memory>
    ensures ok { OnOk result (out.new.items ≡ out.old.items ++ piece.now) }
    ensures kept { take (length out.old.items) out.new.items ≡ out.old.items }
{
    out.extend_from_slice(piece)
}

fn put_quoted_byte(out: &mut Vec<u8>, byte: u8) -> Result<(), Memory>
    ensures ok { OnOk result (out.new.items ≡ out.old.items ++ quoted_byte byte) }
    ensures kept { take (length out.old.items) out.new.items ≡ out.old.items }
{
    if byte == b'\'' {
        put(out, b"''")
    } else {
        put(out, &[byte])
    }
}

fn put_quoted(out: &mut Vec<u8>, bytes: &[u8]) -> Result<(), Memory>
    ensures ok { OnOk result (out.new.items ≡ out.old.items ++ flat_map quoted_byte bytes.now) }
    ensures kept { take (length out.old.items) out.new.items ≡ out.old.items }
{
    for byte in bytes {
        put_quoted_byte(out, *byte)?;
    }
    Ok(())
}

fn put_text(out: &mut Vec<u8>, bytes: &[u8]) -> Result<(), Memory>
    ensures ok { OnOk result (out.new.items ≡ out.old.items ++ text_text bytes.now) }
    ensures kept { take (length out.old.items) out.new.items ≡ out.old.items }
{
    put(out, b"'")?;
    put_quoted(out, bytes)?;
    put(out, b"'")
}

fn put_value(out: &mut Vec<u8>, value: &Value) -> Result<(), Memory>
    ensures ok { OnOk result (out.new.items ≡ out.old.items ++ value_text value.now) }
    ensures kept { take (length out.old.items) out.new.items ≡ out.old.items }
{
    match value {
        Value::Int(number) => put(out, Buffer::new().format(*number).as_bytes()),
        Value::Text(text) => put_text(out, text.bytes()),
    }
}

fn put_later(out: &mut Vec<u8>, values: &[Value]) -> Result<(), Memory>
    ensures ok { OnOk result (out.new.items ≡ out.old.items ++ flat_map (λ v. codes ", " ++ value_text v) values.now) }
    ensures kept { take (length out.old.items) out.new.items ≡ out.old.items }
{
    for value in values {
        put(out, b", ")?;
        put_value(out, value)?;
    }
    Ok(())
}

fn put_values(out: &mut Vec<u8>, values: &[Value]) -> Result<(), Memory>
    ensures ok { OnOk result (out.new.items ≡ out.old.items ++ values_text values.now) }
    ensures kept { take (length out.old.items) out.new.items ≡ out.old.items }
{
    let [first, later @ ..] = values else {
        return Ok(());
    };
    put_value(out, first)?;
    put_later(out, later)
}

fn put_row(out: &mut Vec<u8>, values: &[Value]) -> Result<(), Memory>
    ensures ok { OnOk result (out.new.items ≡ out.old.items ++ row_text values.now) }
    ensures kept { take (length out.old.items) out.new.items ≡ out.old.items }
{
    put(out, b"(")?;
    put_values(out, values)?;
    put(out, b")")
}

/// Writes the text of a row at the end of `out`: its values between parentheses with a comma and a space between each two, numbers in decimal, texts between quotes with each quote doubled.
/// After want of memory `out` is as it was.
pub fn print_row(row: &Row, out: &mut Vec<u8>) -> Result<(), Memory>
    ensures ok { OnOk result (out.new.items ≡ out.old.items ++ row_text row.now) }
    ensures err { OnErr result (out.new.items ≡ out.old.items) }
{
    let start = out.len();
    let written = put_row(out, row.as_slice());
    if written.is_err() {
        out.truncate(start);
    }
    written
}

/// Writes a text between quotes at the end of `out`, each quote in it doubled. After want of memory `out` is as it was.
pub fn print_text(bytes: &[u8], out: &mut Vec<u8>) -> Result<(), Memory>
    ensures ok { OnOk result (out.new.items ≡ out.old.items ++ text_text bytes.now) }
    ensures err { OnErr result (out.new.items ≡ out.old.items) }
{
    let start = out.len();
    let written = put_text(out, bytes);
    if written.is_err() {
        out.truncate(start);
    }
    written
}
