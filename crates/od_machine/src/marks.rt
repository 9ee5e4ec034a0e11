//! Which states a search took up: a bit for each.
ghost use Rattle.std.specs.Prelude.{◌≡◌, ℕ, ◌+◌, ◌-◌, ◌*◌, ◌/◌, ◌^◌, ◌<◌, ◌≤◌, ◌⊎◌, Bool, true, false, length, set as set_at, slice_index_or, vec_len, OnOk, if◌then◌else◌, ◌&&◌, nat_le, nat_lt};
ghost use Rattle.std.specs.Int.{bit_at};
ghost use Rattle.std.specs.List.{Contains};
ghost use Rattle.od_machine.specs.Marks.{AreNamed, AreBlank, AreOff};

use od_text::text::NoMemory;
use std::alloc::Global;
use std::marker::Model;

/// Which states a search took up, and how many steps that took.
#[derive(Drop)]
pub(crate) struct Marks {
    /// The marks, 64 to a word.
    words: Vec<u64>,
    /// How many marks there are.
    count: usize,
    /// The numbers of the words that have a mark, so that no others need be cleared.
    used: Vec<usize>,
    /// How many steps were taken since the last reset.
    steps: usize,
}

impl Model for Marks {
    ghost use Rattle.std.specs.Prelude.{◌*◌, ◌≤◌, vec_len};
    ghost use Rattle.od_machine.specs.Marks.{Visits, marks_in, AreNamed};

    ghost Value = { Visits };

    ghost view = { λ m. record { marks = marks_in m.words.items m.count; steps = m.steps } };

    ghost invariant = { λ m.
        (m.count ≤ 64 * vec_len m.words) × AreNamed m.words.items m.used.items };
}

/// Clears the words whose numbers are given, and forgets these.
fn clear_words(words: &mut Vec<u64>, used: &mut Vec<usize>)
    requires { AreNamed words.old.items used.old.items }
    ensures len { vec_len words.new ≡ vec_len words.old }
    ensures blank { AreBlank words.new.items }
    ensures named { AreNamed words.new.items used.new.items }
{
    'used: while let Some(number) = used.pop() {
        clear_word(words, number);
    }
}

/// Clears the word of this number, if it is there.
fn clear_word(words: &mut Vec<u64>, number: usize)
    ensures len { vec_len words.new ≡ vec_len words.old }
    ensures blank { slice_index_or words.new.items number 0 ≡ 0 }
    ensures others { (k : ℕ) → (k ≡ number → ⊥)
        → slice_index_or words.new.items k 0 ≡ slice_index_or words.old.items k 0 }
{
    if number < words.len() {
        words[number] = 0;
    }
}

/// Notes the word's number if it is still blank.
fn note_word(used: &mut Vec<usize>, number: usize, word: u64) -> Result<(), NoMemory>
    ensures noted { OnOk result (word ≡ 0 → Contains used.new.items number) }
    ensures kept { (k : ℕ) → Contains used.old.items k → Contains used.new.items k }
{
    if word == 0 {
        used.push(number)?;
    }
    Ok(())
}

/// The lowest bits of a word, so many, as ones.
fn low_ones(n: usize) -> u64
    ensures { (i : ℕ) → i < 64 → bit_at result i ≡ (if nat_lt i n then 1 else 0) }
{
    if n < 64 { (1u64 << n) - 1 } else { u64::MAX }
}

/// The bits of a word that lie outside of `from..to` as ones, where the lowest one has the number
/// `first`.
fn outside(first: usize, from: usize, to: usize) -> u64
    requires { first < to }
    ensures { (i : ℕ) → i < 64 → bit_at result i
        ≡ (if nat_le from (first + i) && nat_lt (first + i) to then 0 else 1) }
{
    low_ones(from.saturating_sub(first)) | !low_ones(to - first)
}

/// Clears the bits of these numbers.
fn clear_bits(words: &mut Vec<u64>, from: usize, to: usize)
    requires order { from ≤ to }
    requires inside { to ≤ 64 * vec_len words.old }
    requires small { to < 2 ^ 63 }
    ensures len { vec_len words.new ≡ vec_len words.old }
    ensures before { (k : ℕ) → (k < from / 64) ⊎ ((to + 63) / 64 ≤ k)
        → slice_index_or words.new.items k 0 ≡ slice_index_or words.old.items k 0 }
    ensures bits { (k i : ℕ) → from / 64 ≤ k → k < (to + 63) / 64 → i < 64
        → bit_at (slice_index_or words.new.items k 0) i
        ≡ (if nat_le from (k * 64 + i) && nat_lt (k * 64 + i) to then 0
        else bit_at (slice_index_or words.old.items k 0) i) }
    ensures lower { (k : ℕ)
        → slice_index_or words.new.items k 0 ≤ slice_index_or words.old.items k 0 }
{
    for k in from / 64..(to + 63) / 64 {
        words[k] &= outside(k * 64, from, to);
    }
}

/// Takes words with no mark until there are so many.
fn grow_blank(words: &mut Vec<u64>, count: usize) -> Result<(), NoMemory>
    requires { AreBlank words.old.items }
    ensures blank { AreBlank words.new.items }
    ensures longer { vec_len words.old ≤ vec_len words.new }
    ensures len { OnOk result (count ≤ vec_len words.new) }
{
    if words.len() < count {
        words.resize(count, 0)?;
    }
    Ok(())
}

impl Marks {
    /// No marks.
    pub(crate) fn new(alloc: Global) -> Marks
        ensures none { length result.marks ≡ 0 }
        ensures steps { result.steps ≡ 0 }
    {
        Marks {
            words: Vec::new(alloc),
            count: 0,
            used: Vec::new(alloc),
            steps: 0,
        }
    }

    /// So many marks, none of which is set, and no step.
    pub(crate) fn reset(&mut self, count: usize) -> Result<(), NoMemory>
        requires small { count < 2 ^ 62 }
        ensures len { OnOk result (length self.new.marks ≡ count) }
        ensures off { OnOk result ((n : ℕ) → slice_index_or self.new.marks n false ≡ false) }
        ensures steps { OnOk result (self.new.steps ≡ 0) }
    {
        clear_words(&mut self.words, &mut self.used);
        grow_blank(&mut self.words, (count + 63) / 64)?;
        self.count = count;
        self.steps = 0;
        Ok(())
    }

    /// Whether the mark is set.
    pub(crate) fn has(&self, n: usize) -> bool
        requires { n < length self.now.marks }
        ensures { result ≡ slice_index_or self.now.marks n false }
    {
        self.words[n / 64] >> (n % 64) & 1 == 1
    }

    /// Sets the mark, which is a step.
    pub(crate) fn set(&mut self, n: usize) -> Result<(), NoMemory>
        requires inside { n < length self.old.marks }
        requires few { self.old.steps < 2 ^ 63 }
        ensures len { length self.new.marks ≡ length self.old.marks }
        ensures marks { OnOk result (self.new.marks ≡ set_at self.old.marks n true) }
        ensures steps { OnOk result (self.new.steps ≡ self.old.steps + 1) }
    {
        let number = n / 64;
        let word = self.words[number];
        note_word(&mut self.used, number, word)?;
        self.words[number] = word | 1u64 << (n % 64);
        self.steps += 1;
        Ok(())
    }

    /// Counts a step that sets no mark.
    pub(crate) fn step(&mut self)
        requires { self.old.steps < 2 ^ 63 }
        ensures marks { self.new.marks ≡ self.old.marks }
        ensures steps { self.new.steps ≡ self.old.steps + 1 }
    {
        self.steps += 1;
    }

    /// How many steps were taken since the last reset.
    pub(crate) fn steps(&self) -> usize
        ensures { result ≡ self.now.steps }
    {
        self.steps
    }

    /// Takes the marks from `from` up to `to` off.
    pub(crate) fn clear(&mut self, from: usize, to: usize)
        requires order { from ≤ to }
        requires inside { to ≤ length self.old.marks }
        requires small { to < 2 ^ 63 }
        ensures len { length self.new.marks ≡ length self.old.marks }
        ensures off { AreOff from to self.old.marks self.new.marks }
        ensures steps { self.new.steps ≡ self.old.steps }
    {
        clear_bits(&mut self.words, from, to);
    }
}
