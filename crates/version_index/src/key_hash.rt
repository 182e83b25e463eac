//! Hashes of keys. They need not be good, but they are functions of the key.

ghost use Rattle.std.specs.Prelude.{◌≡◌, fold};
ghost use Rattle.version_index.specs.Hashing.{key_hash, mix, mix_value};

use rel_base::{Key, Value};

/// A hash with a number more.
fn mix(hash: u64, number: u64) -> u64
    ensures { result ≡ mix hash number }
{
    (hash ^ number).wrapping_mul(11_400_714_819_323_198_485)
}

/// A hash with some bytes more.
fn mix_bytes(hash: u64, bytes: &[u8]) -> u64
    ensures { result ≡ fold mix hash bytes.now }
{
    let mut mixed = hash;
    for byte in bytes {
        mixed = mix(mixed, u64::from(*byte));
    }
    mixed
}

/// A hash with a value more.
#[tactic(auto, unfolding(crate::specs::Hashing::mix_value))]
fn mix_value(hash: u64, value: &Value) -> u64
    ensures { result ≡ mix_value hash value.now }
{
    match value {
        Value::Int(number) => mix(hash, number.unsigned_abs()),
        Value::Text(text) => mix_bytes(hash, text.as_str().as_bytes()),
        Value::Bool(answer) => mix(hash, u64::from(*answer)),
        Value::Bytes(bytes) => mix_bytes(hash, bytes.as_slice()),
    }
}

/// A hash of some values.
fn mix_values(values: &[Value]) -> u64
    ensures { result ≡ fold mix_value 0 values.now }
{
    let mut mixed = 0;
    for value in values {
        mixed = mix_value(mixed, value);
    }
    mixed
}

/// The hash of a key.
pub fn hash_of(key: &Key) -> u64
    ensures { result ≡ key_hash key.now }
{
    mix_values(key.as_slice())
}
