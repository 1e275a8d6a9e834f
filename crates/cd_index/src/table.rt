ghost use Rattle.std.specs.Prelude.{◌≡◌, ℕ, ◌<◌, List, [], length, take, get_or};
ghost use Rattle.cd_index.specs.Runs.{IsRun};

use crate::buckets::{empty_buckets, larger, mark, put_in};
use crate::hashing::{hash, mixed};
use crate::run::{greatest_to, put};
use cd_text::{List, NoMemory};
use std::alloc::Global;

/// So many bytes of a key are kept at most.
pub const MAX_KEY_BYTES: usize = 64;

/// Numbers by keys.
#[derive(Debug, Drop)]
pub struct Table {
    /// The last number that was added; 0 before the first.
    pub top: usize,
    /// The numbers without keys.
    pub free: List<usize>,
    /// Whether there are keys of a length, by lengths.
    pub lengths: Vec<bool>,
    /// The numbers by the hashes of their keys.
    pub buckets: Vec<List<usize>>,
    ghost free_rise: { IsRun top free },
    ghost buckets_rise: { (b : ℕ) → IsRun top (get_or buckets.items b []) },
    ghost some: { 0 < length buckets.items },
}

// Its first bytes.
fn front(text: &[u8], count: usize) -> &[u8]
    ensures { result.now ≡ take count text.now }
{
    if count < text.len() {
        &text[..count]
    } else {
        text
    }
}

impl Table {
    ghost use Rattle.std.specs.Prelude.{◌≤◌, nat_eq, true, false, IfOk};
    ghost use Rattle.std.specs.List.{starts_with};
    ghost use Rattle.std.specs.Str.{str_to_ascii_lowercase};
    ghost use Rattle.cd_index.specs.Runs.{Has};
    ghost use Rattle.cd_index.specs.Hashing.{hash};
    ghost use Rattle.cd_index.specs.Tables.{bucket, HasKeyOf, IsCandidate, Keeps};

    /// A table of no numbers, with so many buckets, and one at least.
    pub fn new(alloc: Global, buckets: usize) -> Result<Table, NoMemory>
        ensures { IfOk result (λ table. table.top ≡ 0) }
    {
        let buckets = empty_buckets(alloc, buckets)?;
        Ok(Table {
            top: 0,
            free: List::new(alloc),
            lengths: Vec::new(alloc),
            buckets,
        })
    }

    /// Adds a number without keys: any text may be its text.
    pub fn add_free(&mut self, n: usize) -> Result<(), NoMemory>
        requires { self.old.top ≤ n }
        ensures top { IfOk result (λ _. self.new.top ≡ n) }
        ensures added { IfOk result (λ _. (text : List ℕ) → IsCandidate self.new text n) }
        ensures kept { IfOk result (λ _. Keeps self.old self.new) }
    {
        self.top = n;
        put(&mut self.free, n)?;
        Ok(())
    }

    /// Adds a key to a number, of which `MAX_KEY_BYTES` are kept.
    #[tactic(auto, using(crate::proofs::Runs::run_up))]
    pub fn add_key(&mut self, n: usize, key: &[u8]) -> Result<(), NoMemory>
        requires { self.old.top ≤ n }
        ensures top { IfOk result (λ _. self.new.top ≡ n) }
        ensures added { IfOk result (λ _. (text : List ℕ) → starts_with nat_eq (str_to_ascii_lowercase text) (str_to_ascii_lowercase key.now) ≡ true → IsCandidate self.new text n) }
        ensures kept { IfOk result (λ _. Keeps self.old self.new) }
    {
        let bytes = front(key, MAX_KEY_BYTES);
        self.top = n;
        mark(&mut self.lengths, bytes.len())?;
        put_in(&mut self.buckets, hash(bytes), n)?;
        Ok(())
    }

    fn bucket(&self, hash: usize) -> &[usize]
        ensures { result.now ≡ bucket self.now hash }
    {
        self.buckets[hash % self.buckets.len()].as_slice()
    }

    fn has_length(&self, long: usize) -> bool
        ensures { result ≡ get_or self.now.lengths.items long false }
    {
        match self.lengths.get(long) {
            Some(is_length) => *is_length,
            None => false,
        }
    }

    // A number, or a greater one up to a limit that has a key of a length by the hash of the text's first bytes.
    fn best_of(&self, text: &[u8], long: usize, made: usize, limit: usize, best: usize) -> usize
        requires best { best ≤ limit }
        requires made { made ≡ hash (str_to_ascii_lowercase (take long text.now)) }
        ensures at_most { result ≤ limit }
        ensures least { best ≤ result }
        ensures greatest { (n : ℕ) → HasKeyOf self.now text.now n long → n ≤ limit → n ≤ result }
    {
        if !self.has_length(long) {
            return best;
        }
        let found = greatest_to(self.bucket(made), limit);
        larger(best, found)
    }

    /// A number up to a limit. No number up to that limit that may have a key the text begins with, in any case, is greater.
    pub fn candidate(&self, text: &[u8], limit: usize) -> usize
        ensures at_most { result ≤ limit }
        ensures greatest { (n : ℕ) → IsCandidate self.now text.now n → n ≤ limit → n ≤ result }
    {
        let mut best = greatest_to(self.free.as_slice(), limit);
        let mut made = 0usize;
        for long in 0..self.lengths.len() {
            best = self.best_of(text, long, made, limit, best);
            if long >= text.len() {
                return best;
            }
            made = mixed(made, text[long]);
        }
        best
    }
}
