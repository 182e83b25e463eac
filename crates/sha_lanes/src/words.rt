//! The words of four blocks, one block in each lane.

ghost use Rattle.std.specs.Prelude.{◌≡◌, ℕ, List, ◌+◌, ◌*◌, ◌<◌, ◌≤◌, length, slice_index};
ghost use Rattle.sha2.specs.Sha256.{add32, next_word, round_constants, schedule, small_sigma0, small_sigma1, word_at};
ghost use Rattle.sha_lanes.specs.Lanes.{AreKeyed, HoldWords, block_of, lane_at};

use crate::consts::round_number;
use std::simd::u32x4;

/// The lanes of vectors, each the word of a block at its place.
pub type Words = [u32x4; 64];

/// The sum in each lane.
#[inline(always)]
fn add(a: u32x4, b: u32x4) -> u32x4
    ensures { (lane : ℕ) → lane < 4 → slice_index result lane ≡ add32 (slice_index a lane) (slice_index b lane) }
{
    a + b
}

/// σ0 in each lane.
#[inline(always)]
fn small_sigma0(x: u32x4) -> u32x4
    ensures { (lane : ℕ) → lane < 4 → slice_index result lane ≡ small_sigma0 (slice_index x lane) }
{
    ((x >> u32x4::splat(7)) | (x << u32x4::splat(25)))
        ^ ((x >> u32x4::splat(18)) | (x << u32x4::splat(14)))
        ^ (x >> u32x4::splat(3))
}

/// σ1 in each lane.
#[inline(always)]
fn small_sigma1(x: u32x4) -> u32x4
    ensures { (lane : ℕ) → lane < 4 → slice_index result lane ≡ small_sigma1 (slice_index x lane) }
{
    ((x >> u32x4::splat(17)) | (x << u32x4::splat(15)))
        ^ ((x >> u32x4::splat(19)) | (x << u32x4::splat(13)))
        ^ (x >> u32x4::splat(10))
}

/// The word at a byte, high byte first.
#[inline(always)]
fn word(bytes: &[u8], at: usize) -> u32
    requires { at + 4 ≤ length bytes.now }
    ensures { result ≡ word_at bytes.now at }
{
    u32::from_be_bytes([bytes[at], bytes[at + 1], bytes[at + 2], bytes[at + 3]])
}

/// The words at a place of four blocks, which stand one after the other.
#[inline(always)]
fn words_at(bytes: &[u8], place: usize) -> u32x4
    requires four { length bytes.now ≡ 256 }
    requires place { place < 16 }
    ensures { (lane : ℕ) → lane < 4 → slice_index result lane ≡ word_at (block_of bytes.now lane) (4 * place) }
{
    let at = 4 * place;
    u32x4::from_array([
        word(bytes, at),
        word(bytes, at + 64),
        word(bytes, at + 128),
        word(bytes, at + 192),
    ])
}

/// The first 16 words of each block are its bytes.
fn load(bytes: &[u8], words: &mut Words)
    requires { length bytes.now ≡ 256 }
    ensures { HoldWords bytes.now words.new 16 }
{
    'load: for place in 0..16 {
        words[place] = words_at(bytes, place);
    }
}

/// The next word of each block, by those before it.
#[inline(always)]
fn next(words: &Words, place: usize) -> u32x4
    requires from { 16 ≤ place }
    requires within { place < 64 }
    ensures { (bytes : List ℕ) → HoldWords bytes words.now place
        → (lane : ℕ) → lane < 4 → slice_index result lane ≡ slice_index (schedule (block_of bytes lane) 48) place }
{
    let sum = add(small_sigma1(words[place - 2]), words[place - 7]);
    add(add(sum, small_sigma0(words[place - 15])), words[place - 16])
}

/// The other 48 words follow from these.
fn extend(words: &mut Words)
    ensures { (bytes : List ℕ) → HoldWords bytes words.old 16 → HoldWords bytes words.new 64 }
{
    'extend: for place in 16..64 {
        words[place] = next(words, place);
    }
}

/// Adds the number of its round to each word.
fn add_numbers(words: &mut Words)
    ensures { (bytes : List ℕ) → HoldWords bytes words.old 64 → AreKeyed bytes words.new }
{
    'numbers: for place in 0..64 {
        words[place] = add(words[place], u32x4::splat(round_number(place)));
    }
}

/// The words of four blocks, with the numbers of the rounds added.
pub fn keyed_words(bytes: &[u8]) -> Words
    requires { length bytes.now ≡ 256 }
    ensures { AreKeyed bytes.now result }
{
    let mut words = [u32x4::splat(0); 64];
    load(bytes, &mut words);
    extend(&mut words);
    add_numbers(&mut words);
    words
}
