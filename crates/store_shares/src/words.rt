//! Sets of numbers, of which many may lie close together.
ghost use Rattle.std.specs.Prelude.{◌≡◌, ◌<◌, ◌≤◌, ◌/◌, ◌%◌, ◌+◌, ◌||◌, ℕ, true, false, nat_eq, length, OnOk, IfOk, MatchOption};
ghost use Rattle.std.specs.Int.{bit_at};
ghost use Rattle.store_shares.specs.Words.{word_has, has, word_at, IsRising, IsUpTo, IsLowest, HasNone, IsNext, IsNextIn, HasNoneIn, IsJoining};

use cbl_base::NoMemory;
use std::alloc::Global;

/// Which of the 64 numbers from 64 times the index on are in a set.
#[derive(Clone, Copy)]
pub(crate) struct Word {
    pub(crate) index: usize,
    pub(crate) bits: u64,
}

/// The first place from which on no word's index is below this one.
fn first_from(words: &[Word], index: usize) -> usize
    requires rising { IsRising words.now }
    ensures within { result ≤ length words.now }
    ensures below { (i : ℕ) → i < result → (word_at words.now i).index < index }
    ensures rest { (i : ℕ) → result ≤ i → i < length words.now → index ≤ (word_at words.now i).index }
{
    let mut low = 0;
    let mut high = words.len();
    while low < high {
        let middle = low + (high - low) / 2;
        if words[middle].index < index {
            low = middle + 1;
        } else {
            high = middle;
        }
    }
    low
}

/// The lowest bit that is set from a place on.
fn lowest(bits: u64, from: u32) -> Option<u32>
    requires { from < 64 }
    ensures { MatchOption result (HasNone bits from) (IsLowest bits from) }
{
    let rest = bits >> from;
    if rest == 0 {
        return None;
    }
    Some(from + rest.trailing_zeros())
}

/// The first bit of the word from a base on that is looked at, from a number on.
fn start_of(base: usize, from: usize) -> u32
    ensures low { result < 64 }
    ensures inside { base < from → result ≡ from % 64 }
    ensures outside { from ≤ base → result ≡ 0 }
{
    if base < from { (from % 64) as u32 } else { 0 }
}

/// The least number of a word from one number on and below another.
fn next_in(word: Word, from: usize, limit: usize) -> Option<usize>
    requires { from / 64 ≤ word.index }
    ensures { MatchOption result (HasNoneIn word from limit) (IsNextIn word from limit) }
{
    if limit / 64 < word.index {
        return None;
    }
    let base = word.index * 64;
    let Some(bit) = lowest(word.bits, start_of(base, from)) else {
        return None;
    };
    let number = base + bit as usize;
    if limit <= number {
        return None;
    }
    Some(number)
}

/// The least number of a set from one number on and below another, and that other one where there is none.
pub(crate) fn next(words: &[Word], from: usize, limit: usize) -> usize
    requires rising { IsRising words.now }
    requires within { from ≤ limit }
    ensures { IsNext (has words.now) from limit result }
{
    let mut at = first_from(words, from / 64);
    while at < words.len() {
        let word = words[at];
        if limit / 64 < word.index {
            return limit;
        }
        if let Some(number) = next_in(word, from, limit) {
            return number;
        }
        at += 1;
    }
    limit
}

/// Puts the numbers of a word into a set, which stays in order where it has none of a later word.
fn push_word(words: &mut Vec<Word>, word: Word) -> Result<(), NoMemory>
    ensures has { OnOk result ((k : ℕ) →
        has words.new.items k ≡ (has words.old.items k || word_has word k)) }
    ensures rising { OnOk result (IsRising words.old.items → IsUpTo words.old.items word.index →
        IsRising words.new.items) }
    ensures up { OnOk result (IsUpTo words.old.items word.index → IsUpTo words.new.items word.index) }
{
    let Some(last) = words.pop() else {
        return Ok(words.push(word)?);
    };
    if last.index == word.index {
        return Ok(words.push(Word {
            index: word.index,
            bits: last.bits | word.bits,
        })?);
    }
    words.push(last)?;
    words.push(word)?;
    Ok(())
}

/// The word of one number.
fn word_of(number: usize) -> Word
    ensures numbers { (k : ℕ) → word_has result k ≡ nat_eq k number }
    ensures index { result.index ≡ number / 64 }
{
    Word {
        index: number / 64,
        bits: 1u64 << (number % 64),
    }
}

/// Puts a number into a set, which stays in order where it has none of a later word.
pub(crate) fn push_number(words: &mut Vec<Word>, number: usize) -> Result<(), NoMemory>
    ensures has { OnOk result ((k : ℕ) →
        has words.new.items k ≡ (has words.old.items k || nat_eq k number)) }
    ensures rising { OnOk result (IsRising words.old.items → IsUpTo words.old.items (number / 64) →
        IsRising words.new.items) }
    ensures up { OnOk result (IsUpTo words.old.items (number / 64) →
        IsUpTo words.new.items (number / 64)) }
{
    push_word(words, word_of(number))
}

/// The words of two sets so far, and how many of each one's were taken.
#[derive(Drop)]
pub(crate) struct Joining {
    pub(crate) words: Vec<Word>,
    pub(crate) left: usize,
    pub(crate) right: usize,
}

/// Whether the first set's word comes next.
fn is_left(first: &[Word], second: &[Word], left: usize, right: usize) -> bool
    ensures left { result ≡ true → left < length first.now }
    ensures before { result ≡ true → right < length second.now → (word_at first.now left).index ≤ (word_at second.now right).index }
    ensures behind { result ≡ false → left < length first.now → right < length second.now }
    ensures after { result ≡ false → left < length first.now → (word_at second.now right).index ≤ (word_at first.now left).index }
{
    if left >= first.len() {
        return false;
    }
    if right >= second.len() {
        return true;
    }
    first[left].index < second[right].index
}

/// Takes the next word of two sets.
fn join_next(
    first: &[Word],
    second: &[Word],
    turn: usize,
    state: &mut Joining,
) -> Result<(), NoMemory>
    requires joining { IsJoining first.now second.now turn state.old }
    requires within { turn < length first.now + length second.now }
    requires one { IsRising first.now }
    requires other { IsRising second.now }
    ensures { OnOk result (IsJoining first.now second.now (turn + 1) state.new) }
{
    if is_left(first, second, state.left, state.right) {
        push_word(&mut state.words, first[state.left])?;
        state.left += 1;
        return Ok(());
    }
    push_word(&mut state.words, second[state.right])?;
    state.right += 1;
    Ok(())
}

/// The numbers of both sets.
pub(crate) fn joined(alloc: Global, first: &[Word], second: &[Word]) -> Result<Vec<Word>, NoMemory>
    requires one { IsRising first.now }
    requires other { IsRising second.now }
    ensures has { IfOk result (λ words. (k : ℕ) → has words.items k ≡ (has first.now k || has second.now k)) }
    ensures rising { IfOk result (λ words. IsRising words.items) }
{
    let mut state = Joining {
        words: Vec::with_capacity(alloc, first.len() + second.len())?,
        left: 0,
        right: 0,
    };
    for turn in 0..first.len() + second.len() {
        join_next(first, second, turn, &mut state)?;
    }
    Ok(state.words)
}
