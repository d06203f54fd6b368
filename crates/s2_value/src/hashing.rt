//! The hash of a key: 64-bit FNV-1a over the key's number and its bytes.
ghost use Rattle.std.specs.Prelude.{◌≡◌};
ghost use Rattle.std.specs.List.{flat_map};
ghost use Rattle.s2_value.specs.Bytes.{fnv_from, key_hash, value_bytes, number_bytes};

use crate::{Key, Value};
use byteorder::{ByteOrder, LittleEndian};

const OFFSET_BASIS: u64 = 14695981039346656037;

const PRIME: u64 = 1099511628211;

fn feed(hash: u64, bytes: &[u8]) -> u64
    ensures { result ≡ fnv_from hash bytes.now }
{
    let mut hash = hash;
    for byte in bytes {
        hash = (hash ^ u64::from(*byte)).wrapping_mul(PRIME);
    }
    hash
}

fn feed_number(hash: u64, number: i64) -> u64
    ensures { result ≡ fnv_from hash (number_bytes number) }
{
    let mut bytes = [0u8; 8];
    LittleEndian::write_u64(&mut bytes, number.cast_unsigned());
    feed(hash, &bytes)
}

fn feed_value(hash: u64, value: &Value) -> u64
    ensures { result ≡ fnv_from hash (value_bytes value.now) }
{
    match value {
        Value::Int(number) => feed_number(feed(hash, &[1]), *number),
        Value::Text(text) => {
            let bytes = text.bytes();
            let start = feed(hash, &[2, bytes.len() as u8]);
            feed(start, bytes)
        }
    }
}

fn feed_values(hash: u64, values: &[Value]) -> u64
    ensures { result ≡ fnv_from hash (flat_map value_bytes values.now) }
{
    let mut hash = hash;
    for value in values {
        hash = feed_value(hash, value);
    }
    hash
}

/// The 64-bit FNV-1a hash of the byte `j` and then the key's bytes. `j` numbers the unique keys, then the indexes, from 0.
/// The function is that of Fowler, Noll and Vo, with the offset basis 14695981039346656037 and the prime 1099511628211.
pub fn key_hash(j: u8, key: &Key) -> u64
    ensures { result ≡ key_hash j key.now }
{
    feed_values(feed(OFFSET_BASIS, &[j]), key.as_slice())
}
