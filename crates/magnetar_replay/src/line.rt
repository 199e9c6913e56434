// A line: the name of a query, and words behind it, which are numbers or byte strings. Every function here takes any input: what does not
// fit is left out, and a number that is not there reads as 0.
ghost use Rattle.std.specs.Prelude.{◌≡◌, ◌*◌, ◌+◌, ◌++◌, ◌<◌, ◌≤◌, ◌^◌, IfOk, OnOk, map, length, drop, min, slice_index, sum, take, bytes_eq};
ghost use Rattle.magnetar_replay.specs.Words as text;
ghost use Rattle.magnetar_replay.specs.Lists as lists;
ghost use Rattle.magnetar_replay.specs.Strings as strings;

use crate::show::MARK;
use magnetar_hash::transcript::Transcript;
use std::alloc::{AllocError, Global};

// The names of more than eight letters.
const LONG: [&[u8]; 6] = [
    b"absorbdigest",
    b"absorbfield",
    b"absorbu64",
    b"absorbwords",
    b"partslens",
    b"rawdrawvec",
];

// The first word.
fn first_word(line: &[u8]) -> &[u8]
    ensures { result.now ≡ text.first_word line.now }
{
    line.split(|c| *c == b' ').next().unwrap_or(line)
}

// The last eight letters, without zeros in front.
fn last_letters(word: &[u8]) -> &[u8]
    ensures { result.now ≡ text.last_letters word.now }
{
    let last = &word[word.len().saturating_sub(8)..];
    &last[zeros(last)..]
}

// How many zeros are in front.
fn zeros(word: &[u8]) -> usize
    ensures value { result ≡ text.zeros_in_front word.now }
    ensures within { result ≤ length word.now }
{
    word.iter().take_while(|c| **c == 0).count()
}

// The name is this one.
pub(crate) fn is(name: &[u8], known: &[u8]) -> bool
    ensures { result ≡ bytes_eq name.now known.now }
{
    name == known
}

// The name of the line's query: the last eight letters of its first word tell it.
pub fn name(line: &[u8]) -> &[u8]
    ensures { result.now ≡ text.query_name line.now }
{
    let letters = last_letters(first_word(line));
    for long in LONG {
        if last_letters(long) == letters {
            return long;
        }
    }
    letters
}

// What a digit stands for, in either base; 0 where it is none. In this form it needs no jump, where a match on the two ranges does.
#[tactic(auto, unfolding(crate::specs::Words::digit_value))]
fn digit(c: u8) -> u8
    ensures value { result ≡ text.digit_value c }
    ensures small { result < 16 }
{
    if c >= b'a' && c <= b'f' {
        c - b'a' + 10
    } else if c >= b'0' && c <= b'9' {
        c - b'0'
    } else {
        0
    }
}

// The second letter of a word is x.
fn is_hex(word: &[u8]) -> bool
    ensures { result ≡ text.is_hex word.now }
{
    word.get(1).copied() == Some(b'x')
}

// The number that a word spells modulo 2^64, in hexadecimal where its second letter is x.
pub fn number(word: &[u8]) -> u64
    ensures { result ≡ text.spelled_number word.now }
{
    let hex = is_hex(word);
    let mut value: u64 = 0;
    for c in word {
        let d = u64::from(digit(*c));
        value = match (*c, hex) {
            (b'x', _) => 0,
            (_, true) => (value << 4) | d,
            (_, false) => value.wrapping_mul(10).wrapping_add(d),
        };
    }
    value
}

// The numbers behind the name.
pub fn numbers(alloc: Global, line: &[u8]) -> Result<Vec<u64>, AllocError>
    ensures { IfOk result (λ nums. nums.items ≡ text.line_numbers line.now) }
{
    let mut nums = Vec::new(alloc);
    for word in line.split(|c| *c == b' ').skip(1) {
        nums.push(number(word))?;
    }
    Ok(nums)
}

// Byte strings, one behind the other, and how long each is.
#[derive(Drop)]
pub struct Strings {
    pub bytes: Vec<u8>,
    pub lens: Vec<usize>,
}

// The byte strings behind the name, each spelled in hexadecimal, whether it is meant so or not.
pub fn byte_strings(alloc: Global, line: &[u8]) -> Result<Strings, AllocError>
    ensures { IfOk result (λ s. (s.bytes.items ≡ text.line_bytes line.now) × (s.lens.items ≡ text.line_lens line.now)) }
{
    let mut bytes = Vec::new(alloc);
    let mut lens = Vec::new(alloc);
    for word in line.split(|c| *c == b' ').skip(1) {
        push_spelled(&mut bytes, word)?;
        lens.push(word.len() / 2)?;
    }
    Ok(Strings { bytes, lens })
}

// Adds the bytes that a word spells.
fn push_spelled(bytes: &mut Vec<u8>, word: &[u8]) -> Result<(), AllocError>
    ensures { OnOk result (bytes.new.items ≡ bytes.old.items ++ text.spelled_bytes word.now) }
{
    for pair in word.chunks_exact(2) {
        bytes.push(byte(pair))?;
    }
    Ok(())
}

// The byte that the first two letters spell; one that is missing is 0.
fn byte(letters: &[u8]) -> u8
    ensures { result ≡ text.byte_value (slice_index letters.now 0) (slice_index letters.now 1) }
{
    match letters {
        [high, low, ..] => (digit(*high) << 4) | digit(*low),
        [high] => digit(*high) << 4,
        _ => 0,
    }
}

// The items from index i on.
pub(crate) fn behind<T>(items: &[T], i: usize) -> &[T]
    ensures { result.now ≡ drop i items.now }
{
    items.get(i..).unwrap_or(&[])
}

// The 32 bytes that the letters spell behind the name, whatever they are.
pub fn hash(line: &[u8]) -> [u8; 32]
    ensures { result ≡ text.line_hash line.now }
{
    let mut bytes = [0u8; 32];
    let letters = behind(behind(line, first_word(line).len()), 1);
    for i in 0..32 {
        bytes[i] = byte(behind(letters, 2 * i));
    }
    bytes
}

// The first 32 bytes, 0 where there are fewer.
pub fn digest(bytes: &[u8]) -> [u8; 32]
    ensures { result ≡ text.first_32 bytes.now }
{
    let mut digest = [0u8; 32];
    for i in 0..32 {
        digest[i] = bytes.get(i).copied().unwrap_or(0);
    }
    digest
}

impl Strings {
    // The bytes of the strings from i on, before string k.
    pub fn between(&self, i: usize, k: usize) -> &[u8]
        ensures { result.now ≡ strings.strings_between self.now.bytes.items self.now.lens.items i k }
    {
        let from = total(self.lens.as_slice(), i);
        let to = total(self.lens.as_slice(), k);
        self.bytes.as_slice().get(from..to).unwrap_or(b"")
    }

    // The bytes of string i.
    pub fn at(&self, i: usize) -> &[u8]
        ensures { result.now ≡ strings.string_at self.now.bytes.items self.now.lens.items i }
    {
        self.between(i, i.saturating_add(1))
    }

    // The transcript of a query: its state is the first string, and its counter the number behind it.
    pub fn transcript(&self, nums: &[u64]) -> Transcript
        ensures { result ≡ strings.query_transcript self.now.bytes.items self.now.lens.items nums.now }
    {
        let state = digest(self.at(0));
        Transcript {
            state,
            squeeze_ctr: at(nums, 1),
        }
    }

    // How long the strings are from i on, before string k.
    pub fn lens(&self, i: usize, k: usize) -> &[usize]
        ensures { result.now ≡ strings.part_of self.now.lens.items i k }
    {
        self.lens.as_slice().get(i..k).unwrap_or(&[])
    }
}

// The sum of the first n sizes, as many as there are; the largest number where it does not fit.
fn total(sizes: &[usize], n: usize) -> usize
    ensures { result ≡ min (strings.start_of sizes.now n) usize.MAX }
{
    let mut sum: usize = 0;
    for size in sizes.iter().take(n) {
        sum = sum.saturating_add(*size);
    }
    sum
}

// ---- Lists: a count, and as many numbers.

// The list in front, and what is behind it. It ends where the numbers do.
pub fn split_list(nums: &[u64]) -> (&[u64], &[u64])
    ensures front { result.0.now ≡ lists.front_list nums.now }
    ensures behind { result.1.now ≡ lists.behind_list nums.now }
{
    match nums.split_first() {
        Some((count, rest)) => rest.split_at(rest.len().min(*count as usize)),
        None => (nums, nums),
    }
}

// List number k.
pub fn list(nums: &[u64], k: usize) -> &[u64]
    ensures { result.now ≡ lists.list_at nums.now k }
{
    let mut rest = nums;
    for _ in 0..k {
        rest = split_list(rest).1;
    }
    split_list(rest).0
}

// List number k of those from index i on.
pub fn list_from(nums: &[u64], i: usize, k: usize) -> &[u64]
    ensures { result.now ≡ lists.list_behind nums.now i k }
{
    list(behind(nums, i), k)
}

// The number at index i, or 0.
pub fn at(nums: &[u64], i: usize) -> u64
    ensures { result ≡ slice_index nums.now i }
{
    nums.get(i).copied().unwrap_or(0)
}

// The same as a length.
pub fn size(nums: &[u64], i: usize) -> usize
    ensures { result ≡ slice_index nums.now i }
{
    at(nums, i) as usize
}

// Words to write to, each marked.
pub fn marked(alloc: Global, n: usize) -> Result<Vec<u64>, AllocError>
    ensures { IfOk result (λ v. v.items ≡ lists.marked_words n) }
{
    Ok(vec![in alloc; MARK; n]?)
}

// Numbers as lengths.
pub fn sizes(alloc: Global, nums: &[u64]) -> Result<Vec<usize>, AllocError>
    ensures { IfOk result (λ v. v.items ≡ nums.now) }
{
    let mut all = Vec::new(alloc);
    for n in nums {
        all.push(*n as usize)?;
    }
    Ok(all)
}

// The same, or none where there are more than `most`.
pub fn sizes_within(alloc: Global, nums: &[u64], most: usize) -> Result<Vec<usize>, AllocError>
    ensures { IfOk result (λ v. v.items ≡ lists.at_most nums.now most) }
{
    if nums.len() > most {
        return Ok(Vec::new(alloc));
    }
    sizes(alloc, nums)
}
