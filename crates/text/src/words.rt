// The words of a line, and what they stand for.
ghost use Rattle.std.specs.Prelude.{◌≡◌, ℕ, ◌<◌, ◌≤◌, ◌==◌, true, false, List, Result, length, IfOk, vec_items, string_bytes, slice_index};
ghost use Rattle.std.specs.Char.{is_ascii_whitespace};
ghost use Rattle.text.specs.Answers.{Gives};
ghost use Rattle.text.specs.Arguments.{Listed, Reads, Takes, before_zero, bytes_of, capacity_of, count_of, ended, entries_from, mask_of, negative, positive, room_of, row_of, table_from, taken, value_of, word_of};
ghost use Rattle.text.specs.Words.{words_of, left, Cut, First, Next};

use crate::error::LineError;
use crate::hex::{decode, encode};
use crate::number::{parse_hex, parse_number};
use std::alloc::{AllocError, Global};

// A buffer larger than this serves no script.
const LARGEST_ROOM: usize = 65536;

// What is left of a line.
#[derive(Clone, Copy)]
pub struct Words<'a> {
    rest: &'a [u8],
}

// How many bytes stand before the first blank.
fn word_length(text: &[u8]) -> usize
    ensures within { result ≤ length text.now }
    ensures solid { (k : ℕ) → k < result → is_ascii_whitespace (slice_index text.now k) ≡ false }
    ensures stops { result < length text.now → is_ascii_whitespace (slice_index text.now result) ≡ true }
{
    text.iter()
        .position(|c| c.is_ascii_whitespace())
        .unwrap_or(text.len())
}

// The first word of a text, empty where there is none, and the text after it.
fn cut_word(text: &[u8]) -> (&[u8], &[u8])
    ensures { Cut (words_of text.now) result.0.now (words_of result.1.now) }
{
    let text = text.trim_ascii_start();
    text.split_at(word_length(text))
}

// The bytes that a word stands for: hex, or `-` for no bytes.
pub fn bytes_of(heap: Global, word: &[u8]) -> Result<Vec<u8>, LineError>
    ensures { Gives vec_items (bytes_of word.now) result }
{
    match word {
        b"-" => Ok(Vec::new(heap)),
        _ => decode(heap, word),
    }
}

// The word that stands for bytes. A text and no `Display`, as `encode`.
pub fn word_of(heap: Global, bytes: &[u8]) -> Result<String, AllocError>
    ensures { IfOk result (λ t. string_bytes t ≡ word_of bytes.now) }
{
    if bytes.is_empty() {
        String::from_str(heap, "-")
    } else {
        encode(heap, bytes)
    }
}

// The number that a word is. One line, as `mask_of` is: they differ in the base and in the error.
fn count_of(word: &[u8]) -> Result<usize, LineError>
    ensures { result ≡ count_of word.now }
{
    parse_number(word).ok_or(LineError::Number)
}

// The same, of bytes to write to.
// A test here and in `turns` of the console: a function of bound and error would be as long.
fn room_of(word: &[u8]) -> Result<usize, LineError>
    ensures { result ≡ room_of word.now }
{
    let room = count_of(word)?;
    if room <= LARGEST_ROOM {
        Ok(room)
    } else {
        Err(LineError::Room)
    }
}

// The set that a word is, in hex.
fn mask_of(word: &[u8]) -> Result<usize, LineError>
    ensures { result ≡ mask_of word.now }
{
    parse_hex(word).ok_or(LineError::Mask)
}

// The row of an order map that a word is. A chain, as `capacity_of` has: they differ in base, test and error.
fn row_of(word: &[u8]) -> Result<u16, LineError>
    ensures { result ≡ row_of word.now }
{
    parse_hex(word)
        .filter(|_| word.len() == 4)
        .and_then(|row| u16::try_from(row).ok())
        .ok_or(LineError::Row)
}

// The capacity that a word is.
fn capacity_of(word: &[u8]) -> Result<u16, LineError>
    ensures { result ≡ capacity_of word.now }
{
    parse_number(word)
        .filter(|capacity| *capacity >= 1)
        .and_then(|capacity| u16::try_from(capacity).ok())
        .ok_or(LineError::Capacity)
}

// How many entries stand before the first that is 0.
fn given_count(table: &[u16]) -> usize
    ensures within { result ≤ length table.now }
    ensures some { (k : ℕ) → k < result → (slice_index table.now k == 0) ≡ false }
    ensures stops { result < length table.now → (slice_index table.now result == 0) ≡ true }
{
    table
        .iter()
        .position(|entry| *entry == 0)
        .unwrap_or(table.len())
}

// The entries of a table before the first that is 0: of a table of capacities, those that a line gave.
#[tactic(auto, using(crate::proofs::Given::all_before))]
pub fn given(table: &[u16]) -> &[u16]
    ensures { result.now ≡ before_zero table.now }
{
    &table[..given_count(table)]
}

// The entries that a table was given, as a list on the heap, if the table could be read.
fn list_of(heap: Global, table: Result<[u16; 16], LineError>) -> Result<Vec<u16>, LineError>
    ensures { Listed vec_items table result }
{
    Ok(given(&table?).to_vec(heap)?)
}

// The value of a size, if it is not too large. One line, as `negative_of` is: they differ in the sign and in the bound.
fn positive_of(size: Option<usize>) -> Result<i32, LineError>
    ensures { result ≡ positive size }
{
    size.and_then(|n| i32::try_from(n).ok())
        .ok_or(LineError::Value)
}

// The same, below 0.
fn negative_of(size: Option<usize>) -> Result<i32, LineError>
    ensures { result ≡ negative size }
{
    size.and_then(|n| 0i32.checked_sub_unsigned(u32::try_from(n).ok()?))
        .ok_or(LineError::Value)
}

// The value that a word is: digits, after a minus sign if it is below 0.
fn value_of(word: &[u8]) -> Result<i32, LineError>
    ensures { result ≡ value_of word.now }
{
    // A match of two cases, each a line: a sign as a value would have to be asked for again.
    match word {
        [b'-', digits @ ..] => negative_of(parse_number(digits)),
        _ => positive_of(parse_number(word)),
    }
}

impl<'a> Words<'a> {
    // All words of a line.
    pub fn new(line: &'a [u8]) -> Words<'a>
        ensures { left result ≡ words_of line.now }
    {
        Words { rest: line }
    }

    // The next word, if there is one.
    pub fn next_word(&mut self) -> Option<&'a [u8]>
        ensures { First (left self.old) result (left self.new) }
    {
        let (word, rest) = cut_word(self.rest);
        self.rest = rest;
        if word.is_empty() { None } else { Some(word) }
    }

    // The next word, where there has to be one.
    pub fn word(&mut self) -> Result<&'a [u8], LineError>
        ensures { Next (left self.old) result (left self.new) }
    {
        self.next_word().ok_or(LineError::Missing)
    }

    // The bytes that the next word stands for.
    pub fn bytes(&mut self, heap: Global) -> Result<Vec<u8>, LineError>
        ensures { Takes vec_items (taken bytes_of (left self.old)) result (left self.new) }
    {
        bytes_of(heap, self.word()?)
    }

    // The number that the next word is.
    pub fn number(&mut self) -> Result<usize, LineError>
        ensures { Takes (λ n. n) (taken count_of (left self.old)) result (left self.new) }
    {
        count_of(self.word()?)
    }

    // The number of bytes that the next word asks room for.
    pub fn room(&mut self) -> Result<usize, LineError>
        ensures { Takes (λ n. n) (taken room_of (left self.old)) result (left self.new) }
    {
        room_of(self.word()?)
    }

    // The set that the next word is.
    pub fn mask(&mut self) -> Result<usize, LineError>
        ensures { Takes (λ n. n) (taken mask_of (left self.old)) result (left self.new) }
    {
        mask_of(self.word()?)
    }

    // The value that the next word is.
    pub fn value(&mut self) -> Result<i32, LineError>
        ensures { Takes (λ v. v) (taken value_of (left self.old)) result (left self.new) }
    {
        value_of(self.word()?)
    }

    // What `read` makes of the words that are left, of 16 of them at most; the entries of words that are not given are 0.
    #[tactic(auto, using(crate::proofs::Rows::start, crate::proofs::Rows::done))]
    fn entries<F: Fn(&[u8]) -> Result<u16, LineError>>(
        &mut self,
        read: F,
    ) -> Result<[u16; 16], LineError>
        ghost f: { List ℕ → Result ℕ LineError }
        requires callable { F.IsAlwaysCallable read }
        requires reads { Reads F.Fn read f }
        ensures { Takes (λ t. t) (table_from f 16 (left self.old)) result (left self.new) }
    {
        let mut entries = [0; 16];
        // By place: `Words` is no iterator, and what `zip` of one promises says nothing of the words left after the 16th, which
        // `end` has to see.
        for i in 0..16 {
            let Some(word) = self.next_word() else {
                return Ok(entries);
            };
            entries[i] = read(word)?;
        }
        Ok(entries)
    }

    // The capacities that the next words are, 16 of them at most; those that are not given are 0.
    pub fn capacity_table(&mut self) -> Result<[u16; 16], LineError>
        ensures { Takes (λ t. t) (table_from capacity_of 16 (left self.old)) result (left self.new) }
    {
        self.entries(capacity_of)
    }

    // The capacities that the next words are, 16 of them at most, as a list on the heap.
    pub fn capacities(&mut self, heap: Global) -> Result<Vec<u16>, LineError>
        ensures { Takes vec_items (entries_from capacity_of 16 (left self.old)) result (left self.new) }
    {
        list_of(heap, self.capacity_table())
    }

    // The rows of an order map that the next words are, 16 of them at most; those that are not given are 0.
    pub fn rows(&mut self) -> Result<[u16; 16], LineError>
        ensures { Takes (λ t. t) (table_from row_of 16 (left self.old)) result (left self.new) }
    {
        self.entries(row_of)
    }

    // No word is left.
    pub fn end(&mut self) -> Result<(), LineError>
        ensures { result ≡ ended (left self.old) }
    {
        self.next_word().map_or(Ok(()), |_| Err(LineError::Extra))
    }
}
