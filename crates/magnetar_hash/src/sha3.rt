// SHA3-256, of bytes and of parts. Parts are lent as one byte slice and the lengths of the parts in it.
ghost use Rattle.std.specs.Prelude.{◌≡◌, [], ◌∷◌, length, ◌==◌};
ghost use Rattle.magnetar_hash.specs.Bytes.{word_bytes};
ghost use Rattle.magnetar_hash.specs.Sha3 as spec;
ghost use Rattle.magnetar_hash.specs.Sponge.{Ready, Takes};
ghost use Rattle.magnetar_hash.specs.Parts.{framed, parts, total_length, serialize_parts, domain_answer, hash_answer_of};

use crate::hasher::Sponge;
use magnetar_field::refusal::{Refusal, require};

// SHA3-256 of bytes.
pub fn sha3_256(message: &[u8]) -> [u8; 32]
    ensures { result ≡ spec.sha3 message.now }
{
    let mut sponge = Sponge::empty();
    sponge.feed(message);
    sponge.finish()
}

impl Sponge {
    // A part is taken in: its length, then its bytes.
    pub(crate) fn feed_part(&mut self, part: &[u8])
        requires { Ready self.old }
        ensures { Takes self.old (framed (part.now ∷ [])) self.new }
    {
        self.feed_word(part.len() as u64);
        self.feed(part);
    }

    // A part that is lent as words. It is no byte slice: there is no memory to lay its bytes in.
    pub(crate) fn feed_words_part(&mut self, words: &[u64])
        requires { Ready self.old }
        ensures { Takes self.old (framed (word_bytes words.now ∷ [])) self.new }
    {
        self.feed_word(8 * words.len() as u64);
        self.feed_words(words);
    }

    // The parts are taken in, one after the other.
    pub(crate) fn feed_parts(&mut self, bytes: &[u8], lens: &[usize])
        requires { Ready self.old × (total_length lens.now ≡ length bytes.now) }
        ensures { Takes self.old (framed (parts lens.now bytes.now)) self.new }
    {
        let mut left = bytes;
        for len in lens {
            let (part, rest) = left.split_at(*len);
            self.feed_part(part);
            left = rest;
        }
    }

    // The count of the parts is taken in, then the parts.
    fn serialize_parts(&mut self, bytes: &[u8], lens: &[usize])
        requires { Ready self.old × (total_length lens.now ≡ length bytes.now) }
        ensures { Takes self.old (serialize_parts (parts lens.now bytes.now)) self.new }
    {
        self.feed_word(lens.len() as u64);
        self.feed_parts(bytes, lens);
    }
}

// Whether the lengths add up to `size`. No sum is made, so none can be too large.
pub(crate) fn add_up(lens: &[usize], size: usize) -> bool
    ensures { result ≡ (total_length lens.now == size) }
{
    let mut left = size;
    for n in lens {
        if left < *n {
            return false;
        }
        left -= *n;
    }
    left == 0
}

// SHA3-256 of parts. Refuses 17.
pub fn sha3_domain(bytes: &[u8], lens: &[usize]) -> Result<[u8; 32], Refusal>
    ensures { hash_answer_of result ≡ domain_answer bytes.now lens.now }
{
    require(add_up(lens, bytes.len()), Refusal::PartLengths)?;
    let mut sponge = Sponge::empty();
    sponge.serialize_parts(bytes, lens);
    Ok(sponge.finish())
}
