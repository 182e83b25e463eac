//! Hashes of keys. They need not be good, but they are functions of table and key.

ghost use Rattle.std.specs.Prelude.{◌≡◌, ◌<◌, fold};
ghost use Rattle.conflict_rules.specs.Hashing.{key_place, mix, mix_value, value_hash};

use rel_base::{Key, Value};

/// A hash with a number more.
pub fn mix(hash: u64, number: u64) -> u64
    ensures { result ≡ mix hash number }
{
    (hash ^ number).wrapping_mul(11_400_714_819_323_198_485)
}

/// A hash with some bytes more.
fn mix_bytes(hash: u64, bytes: &[u8]) -> u64
    ensures { result ≡ fold mix hash bytes.now }
{
    let mut mixed = hash;
    for byte in bytes {
        mixed = mix(mixed, u64::from(*byte));
    }
    mixed
}

/// A hash with a value more.
#[tactic(auto, unfolding(crate::specs::Hashing::mix_value))]
fn mix_value(hash: u64, value: &Value) -> u64
    ensures { result ≡ mix_value hash value.now }
{
    match value {
        Value::Int(number) => mix(hash, number.unsigned_abs()),
        Value::Text(text) => mix_bytes(hash, text.as_str().as_bytes()),
        Value::Bool(answer) => mix(hash, u64::from(*answer)),
        Value::Bytes(bytes) => mix_bytes(hash, bytes.as_slice()),
    }
}

/// A hash of some values.
fn mix_values(values: &[Value]) -> u64
    ensures { result ≡ fold mix_value 0 values.now }
{
    let mut mixed = 0;
    for value in values {
        mixed = mix_value(mixed, value);
    }
    mixed
}

/// The place of a key of a table among 1,024. Keys of one table that are equal have one place.
#[tactic(auto, unfolding(crate::specs::Hashing::key_place))]
pub fn key_place(table: u32, key: &Key) -> u32
    ensures place { result ≡ key_place table key.now }
    ensures within { result < 1024 }
{
    let hash = mix(mix_values(key.as_slice()), u64::from(table));
    (hash >> 54) as u32
}

/// The hash of a value of a table, below 256. Values of one table that are equal have one hash.
#[tactic(auto, unfolding(crate::specs::Hashing::value_hash))]
pub fn value_hash(table: u32, value: &Value) -> u32
    ensures hash { result ≡ value_hash table value.now }
    ensures within { result < 256 }
{
    let hash = mix(mix_value(0, value), u64::from(table));
    (hash >> 56) as u32
}
