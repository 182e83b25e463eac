//! Hashes of 32 bytes.

ghost use Rattle.hex.specs.Hex.{encode_lower};
ghost use Rattle.hex_digits.specs.Digits.{hash_of};
ghost use Rattle.std.specs.Prelude.{◌≡◌};

/// The 64 digits of a hash.
pub fn hash_digits(hash: &[u8; 32]) -> [u8; 64]
    ensures { result ≡ encode_lower hash.now }
{
    let mut digits = [0; 64];
    let written = hex::encode_to_slice(hash.as_slice(), &mut digits);
    prove!(written.is_ok());
    digits
}

/// The hash that 64 lower-case digits spell; none exactly where they spell none.
pub fn read_hash(digits: &[u8]) -> Option<[u8; 32]>
    ensures { result ≡ hash_of digits.now }
{
    let mut hash = [0; 32];
    if hex::decode_to_slice(digits, &mut hash).is_err() {
        return None;
    }
    if hash_digits(&hash).as_slice() == digits {
        Some(hash)
    } else {
        None
    }
}
