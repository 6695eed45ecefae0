//! Sets of the numbers of rules.
ghost use Rattle.std.specs.Prelude.{◌≡◌, ◌==◌, ◌&&◌, ◌||◌, ◌<◌, ◌/◌, ◌%◌, ℕ, true, false, get_or, length, nat_lt, IfOk, OnOk};
ghost use Rattle.std.specs.Int.{bit_at};
ghost use Rattle.std.specs.List.{list_any};
ghost use Rattle.kapi_missing.specs.Private.Numbers.{has as has_one, has_bit, has_number, some_has};

use kapi_text::Memory;
use std::alloc::Global;

/// A set of numbers: a list of them if they are few, else a bit for each number in words of 64.
#[derive(Drop)]
pub enum Numbers {
    Few(Vec<usize>),
    Many(Vec<u64>),
}

/// Whether the bit of the number is set.
pub fn is_set(words: &[u64], number: usize) -> bool
    ensures { result ≡ has_bit words.now number }
{
    match words.get(number / 64) {
        Some(word) => (*word >> (number % 64)) & 1 == 1,
        None => false,
    }
}

#[tactic(auto, using(crate::proofs::Words::zero_behind))]
fn lengthen(words: &mut Vec<u64>, place: usize) -> Result<(), Memory>
    ensures long { OnOk result (place < length words.new.items) }
    ensures same { OnOk result ((n : ℕ) → has_bit words.new.items n ≡ has_bit words.old.items n) }
{
    while words.len() <= place {
        words.push(0)?;
    }
    Ok(())
}

// Sets those bits of the word at that place.
#[tactic(auto, using(crate::proofs::Words::bits_set))]
pub fn or_at(words: &mut Vec<u64>, place: usize, bits: u64)
    requires { place < length words.old.items }
    ensures long { length words.new.items ≡ length words.old.items }
    ensures bits { (n : ℕ) → has_bit words.new.items n ≡ (has_bit words.old.items n || ((n / 64 == place) && (bit_at bits (n % 64) == 1))) }
{
    words[place] = words[place] | bits;
}

/// Sets the bit of the number.
#[tactic(auto, using(crate::proofs::Words::one_bit))]
pub fn set(words: &mut Vec<u64>, number: usize) -> Result<(), Memory>
    ensures { OnOk result ((n : ℕ) → has_bit words.new.items n ≡ (has_bit words.old.items n || (number == n))) }
{
    lengthen(words, number / 64)?;
    or_at(words, number / 64, 1 << (number % 64));
    Ok(())
}

fn marked(alloc: Global, list: &[usize]) -> Result<Vec<u64>, Memory>
    ensures { IfOk result (λ v. (n : ℕ) → has_bit v.items n ≡ has_number list.now n) }
{
    let mut words = Vec::new(alloc);
    for number in list {
        set(&mut words, *number)?;
    }
    Ok(words)
}

// The same numbers as bits once the list is long.
fn settle(alloc: Global, numbers: &mut Numbers, all: usize) -> Result<(), Memory>
    ensures { OnOk result ((n : ℕ) → has_one numbers.new n ≡ has_one numbers.old n) }
{
    if let Numbers::Few(list) = numbers {
        if list.len() > all / 64 {
            let words = marked(alloc, list.as_slice())?;
            *numbers = Numbers::Many(words);
        }
    }
    Ok(())
}

fn put(numbers: &mut Numbers, number: usize) -> Result<(), Memory>
    ensures { OnOk result ((n : ℕ) → has_one numbers.new n ≡ (has_one numbers.old n || (number == n))) }
{
    match numbers {
        Numbers::Few(list) => {
            list.push(number)?;
            Ok(())
        }
        Numbers::Many(words) => set(words, number),
    }
}

/// One number more, of so many that there may be: a list becomes bits if these take no more memory.
pub fn add(alloc: Global, numbers: &mut Numbers, number: usize, all: usize) -> Result<(), Memory>
    ensures { OnOk result ((n : ℕ) → has_one numbers.new n ≡ (has_one numbers.old n || (number == n))) }
{
    put(numbers, number)?;
    settle(alloc, numbers, all)
}

pub fn word_at(words: &[u64], place: usize) -> u64
    ensures { result ≡ get_or words.now place 0 }
{
    match words.get(place) {
        Some(word) => *word,
        None => 0,
    }
}

#[tactic(auto, using(crate::proofs::Words::is_within, crate::proofs::Words::one_bit))]
fn add_if_set(into: &mut Vec<u64>, words: &[u64], number: usize)
    requires { length into.old.items ≡ length words.now }
    ensures long { length into.new.items ≡ length into.old.items }
    ensures bits { (n : ℕ) → has_bit into.new.items n ≡ (has_bit into.old.items n || (has_bit words.now number && (number == n))) }
{
    if is_set(words, number) {
        or_at(into, number / 64, 1 << (number % 64));
    }
}

fn add_listed(into: &mut Vec<u64>, words: &[u64], list: &[usize])
    requires { length into.old.items ≡ length words.now }
    ensures long { length into.new.items ≡ length into.old.items }
    ensures bits { (n : ℕ) → has_bit into.new.items n ≡ (has_bit into.old.items n || (has_bit words.now n && has_number list.now n)) }
{
    for number in list {
        add_if_set(into, words, *number);
    }
}

fn add_marked(into: &mut Vec<u64>, words: &[u64], others: &[u64])
    requires { length into.old.items ≡ length words.now }
    ensures long { length into.new.items ≡ length into.old.items }
    ensures bits { (n : ℕ) → has_bit into.new.items n ≡ (has_bit into.old.items n || (has_bit words.now n && has_bit others.now n)) }
{
    for (place, word) in words.iter().enumerate() {
        or_at(into, place, *word & word_at(others, place));
    }
}

fn add_common(into: &mut Vec<u64>, words: &[u64], numbers: &Numbers)
    requires { length into.old.items ≡ length words.now }
    ensures long { length into.new.items ≡ length into.old.items }
    ensures bits { (n : ℕ) → has_bit into.new.items n ≡ (has_bit into.old.items n || (has_bit words.now n && has_one numbers.now n)) }
{
    match numbers {
        Numbers::Few(list) => add_listed(into, words, list.as_slice()),
        Numbers::Many(others) => add_marked(into, words, others.as_slice()),
    }
}

pub fn no_numbers(alloc: Global, count: usize) -> Result<Vec<u64>, Memory>
    ensures long { IfOk result (λ v. length v.items ≡ count) }
    ensures bits { IfOk result (λ v. (n : ℕ) → has_bit v.items n ≡ false) }
{
    Ok(vec![in alloc; 0; count]?)
}

/// The set numbers that some of the sets have.
pub fn common(alloc: Global, words: &[u64], sets: &[&Numbers]) -> Result<Vec<u64>, Memory>
    ensures { IfOk result (λ v. (n : ℕ) → has_bit v.items n ≡ (has_bit words.now n && some_has sets.now n)) }
{
    let mut both = no_numbers(alloc, words.len())?;
    for numbers in sets {
        add_common(&mut both, words, *numbers);
    }
    Ok(both)
}

/// Whether both have a number.
pub fn shares(words: &[u64], others: &[u64]) -> bool
    ensures found { result ≡ true → (n : ℕ) × ((has_bit words.now n && has_bit others.now n) ≡ true) }
    ensures none { result ≡ false → (n : ℕ) → (has_bit words.now n && has_bit others.now n) ≡ false }
{
    for (place, word) in words.iter().enumerate() {
        if *word & word_at(others, place) != 0 {
            return true;
        }
    }
    false
}

fn some_is_set(words: &[u64], list: &[usize]) -> bool
    ensures { result ≡ list_any (λ n. has_bit words.now n) list.now }
{
    list.iter().any(|number| is_set(words, *number))
}

fn is_common(words: &[u64], numbers: &Numbers) -> bool
    ensures found { result ≡ true → (n : ℕ) × ((has_bit words.now n && has_one numbers.now n) ≡ true) }
    ensures none { result ≡ false → (n : ℕ) → (has_bit words.now n && has_one numbers.now n) ≡ false }
{
    match numbers {
        Numbers::Few(list) => some_is_set(words, list.as_slice()),
        Numbers::Many(others) => shares(words, others.as_slice()),
    }
}

/// Whether some of the sets has one of the set numbers.
pub fn is_any_common(words: &[u64], sets: &[&Numbers]) -> bool
    ensures found { result ≡ true → (n : ℕ) × ((has_bit words.now n && some_has sets.now n) ≡ true) }
    ensures none { result ≡ false → (n : ℕ) → (has_bit words.now n && some_has sets.now n) ≡ false }
{
    for numbers in sets {
        if is_common(words, *numbers) {
            return true;
        }
    }
    false
}

/// The numbers below that one.
pub fn first_numbers(alloc: Global, count: usize) -> Result<Vec<u64>, Memory>
    ensures { IfOk result (λ v. (n : ℕ) → has_bit v.items n ≡ nat_lt n count) }
{
    let mut words = Vec::new(alloc);
    for number in 0..count {
        set(&mut words, number)?;
    }
    Ok(words)
}
