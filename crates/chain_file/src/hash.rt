//! The hashes of blocks.

ghost use Rattle.std.specs.Prelude.{◌≡◌, ◌++◌, ℕ, List, [], length, IfOk};
ghost use Rattle.sha_lanes.specs.Absorbed.{Holds};
ghost use Rattle.hex.specs.Hex.{encode_lower};
ghost use Rattle.tx_text.specs.Parts.{line_text};
ghost use Rattle.chain_file.specs.Chain.{hash_digits, no_digits};
ghost use Rattle.chain_file.specs.Following.{Knows};

use crate::form::FileKind;
use rel_base::NoMemory;
use sha_lanes::Hasher;

/// The hash that the first block of a chain names.
pub const NO_DIGITS: [u8; 64] = [b'0'; 64];

/// What is known of the hashes of a chain. A draft has none, and leaves this as it is.
#[derive(Drop)]
pub struct Hashes {
    /// The digits of the hash of the block before.
    pub digits: [u8; 64],
    /// The hash of the block that has begun, as far as it goes.
    pub block: Hasher,
}

impl Hashes {
    /// Before the first block.
    pub fn front() -> Hashes
        ensures { Knows FileKind.Chain result no_digits [] }
    {
        Hashes {
            digits: NO_DIGITS,
            block: Hasher::new(),
        }
    }

    /// The same again.
    pub fn copy(&self) -> Result<Hashes, NoMemory>
        ensures { IfOk result (λ twin. twin ≡ self.now) }
    {
        Ok(Hashes {
            digits: self.digits,
            block: self.block,
        })
    }

    /// Takes a line of the block that has begun.
    pub fn add(&mut self, kind: FileKind, line: &[u8])
        ensures { (digits bytes : List ℕ) → Knows kind self.old digits bytes → Knows kind self.new digits (bytes ++ line_text line.now) }
    {
        match kind {
            FileKind::Draft => {}
            FileKind::Chain => add_line(&mut self.block, line),
        }
    }

    /// Takes the last line of the block that has begun.
    pub fn end(&mut self, kind: FileKind, line: &[u8])
        ensures { (digits bytes : List ℕ) → Knows kind self.old digits bytes → Knows kind self.new (hash_digits (bytes ++ line_text line.now)) [] }
    {
        match kind {
            FileKind::Draft => {}
            FileKind::Chain => {
                add_line(&mut self.block, line);
                let block = std::mem::replace(&mut self.block, Hasher::new());
                self.digits = digits_of(block);
            }
        }
    }
}

/// Puts a line and its newline after what the hash holds.
fn add_line(hash: &mut Hasher, line: &[u8])
    ensures { (bytes : List ℕ) → Holds hash.old bytes → Holds hash.new (bytes ++ line_text line.now) }
{
    hash.update(line);
    hash.update(b"\n");
}

/// Bytes as hexadecimal digits.
fn hex_of(digest: &[u8; 32]) -> [u8; 64]
    ensures { result ≡ encode_lower digest.now }
{
    let mut digits = NO_DIGITS;
    let written = hex::encode_to_slice(digest.as_slice(), &mut digits);
    prove!(written.is_ok());
    digits
}

/// The digits of a hash.
fn digits_of(hash: Hasher) -> [u8; 64]
    ensures { (bytes : List ℕ) → Holds hash bytes → result ≡ hash_digits bytes }
{
    hex_of(&hash.finalize())
}

/// The digits of the hash of bytes.
pub fn digits_of_bytes(bytes: &[u8]) -> [u8; 64]
    ensures { result ≡ hash_digits bytes.now }
{
    let mut hasher = Hasher::new();
    hasher.update(bytes);
    digits_of(hasher)
}
