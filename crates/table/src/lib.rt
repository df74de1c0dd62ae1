// A table of mappings in lent words, four words each: read, searched, and spliced in place.
#![tactic(auto)]

ghost use Rattle.std.specs.Prelude.{◌≡◌, true, false, ℕ, List, [], ◌+◌, ◌*◌, ◌^◌, ◌≤◌, ◌<◌, max, length, drop};
ghost use mathlib.Core.List.{flat_map};
ghost use Rattle.model.specs.Rules.{limit, end};
ghost use Rattle.model.specs.declared.Mapping.{Mapping};
ghost use Rattle.model.specs.Table.{mapping_from, mappings_in, words_of, written, bad_place};
ghost use Rattle.std.specs.Option.{option_to_list};
ghost use Rattle.model.specs.Cut.{in_space_tests, see};
ghost use Rattle.model.specs.Lookups.{nothing};
ghost use Rattle.model.specs.Rows.{all};
ghost use Rattle.words.specs.Words.{stored, cleared, ZeroFrom};
ghost use Rattle.table.specs.Halving.{binary_digits, middle, halved, at, step, halving, Halvable, InOrder, Steppable};
ghost use Rattle.table.specs.Places.{mapping_at, first_where, starts_behind, ends_behind, seen_by, free_tests, widest, Valid, KeptIn};
ghost use Rattle.table.specs.Kept.{kept_order};
ghost use Rattle.table.specs.Splice.{mappings_of, spliced, Splice};

use model::{Mapping, Seen, Shown, Space};

// What takes the place of mappings: what is left of the first below a range, the new mapping, what is left of the last above
// it.
#[derive(Clone, Copy)]
pub struct Replacement {
    pub lower: Option<Mapping>,
    pub new: Option<Mapping>,
    pub upper: Option<Mapping>,
}

// The mapping in the four words from word `at` on.
pub fn mapping_from(words: &[u64], at: usize) -> Mapping
    requires { at + 4 ≤ length words.now }
    ensures { result ≡ mapping_from at words.now }
{
    let [address, size, object, offset] = words[at..at + 4].as_chunks::<4>().0[0];
    Mapping {
        address,
        size,
        object,
        offset,
    }
}

// The mapping at place `i`.
pub fn read_mapping(t: &[u64], i: usize) -> Mapping
    requires { 4 * i + 4 ≤ length t.now }
    ensures { result ≡ mapping_at t.now i }
{
    mapping_from(t, 4 * i)
}

// Writes a mapping at place `i`.
fn write_mapping(t: &mut [u64], i: usize, m: Mapping)
    requires { 4 * i + 4 ≤ length t.old }
    ensures { t.new ≡ stored t.old (4 * i) (words_of m) }
{
    let words = [m.address, m.size, m.object, m.offset];
    words::store(t, 4 * i, &words)
}

// The place of the first mapping from place `from` on that starts behind the byte address `x`; `count` where none does.
pub fn first_starting_behind(t: &[u64], from: usize, count: usize, x: u64) -> usize
    requires { (from ≤ count) × (4 * count ≤ length t.now) }
    ensures { result ≡ from + first_where (starts_behind x) (drop from (mappings_in count t.now)) }
{
    // A loop: tried with find, which proved, but a call took 6 to 14 instructions more, of about 800 to 70,000.
    for i in from..count {
        if x < read_mapping(t, i).address {
            return i;
        }
    }
    count
}

// Nothing is seen, for so many bytes.
fn nothing(bytes: u64) -> Seen
    ensures { result ≡ nothing bytes }
{
    Seen {
        shown: Shown::Nothing,
        bytes,
    }
}

// What is seen at `x` by the first mapping that ends behind it, the next one where `x` is not in it.
fn seen_by(m: Mapping, x: u64) -> Seen
    requires { (x < end m) × (end m ≤ limit) × (m.offset + m.size ≤ limit) }
    ensures { result ≡ seen_by m x }
{
    if x < m.address {
        return nothing(m.address - x);
    }
    Seen {
        shown: Shown::Object(m.object, m.offset + (x - m.address)),
        bytes: m.address + m.size - x,
    }
}

// The byte address `x` lies inside the space.
fn in_space(s: Space, x: u64) -> bool
    requires { s.start + s.size ≤ limit }
    ensures { result ≡ all (in_space_tests s x) }
{
    (s.start <= x) & (x < s.start + s.size)
}

// A search for the first row that ends behind a byte address: its place is one of the `left` from `lo` on, or right behind
// them, after `looks` looks at one row each. No code reads `looks`, but the claim `Finds` counts by it, and a ghost field
// holds facts alone.
#[derive(Clone, Copy)]
pub struct Search {
    pub lo: usize,
    pub left: usize,
    pub looks: usize,
}

impl Search {
    // The place in the middle of what is left: where the next look goes.
    pub fn middle(self) -> usize
        requires { self.lo + self.left < 2 ^ 64 }
        ensures { result ≡ middle self }
    {
        self.lo + self.left / 2
    }

    // What a look at the row in the middle, as a mapping, leaves of the search for `x`. No other row is lent here: that one
    // alone decides, and it is counted.
    pub fn halved(self, m: Mapping, x: u64) -> Search
        requires { Halvable self m }
        ensures { result ≡ halved x m self }
    {
        let half = self.left / 2;
        let looks = self.looks + 1;
        if x < m.address + m.size {
            return Search {
                lo: self.lo,
                left: half,
                looks,
            };
        }
        Search {
            lo: self.lo + (self.left - half),
            left: half,
            looks,
        }
    }
}

// Rows in order, which are searched by halves: a table's mappings, or sparse ranges, each as a mapping of its addresses.
pub trait Rows: Copy {
    ghost rows: { Self → List Mapping };

    // So many steps are enough for the most rows.
    const MOST_STEPS: usize;

    fn number(self) -> usize
        ensures { result ≡ length (rows self) };

    // The row at place `i`.
    fn row(self, i: usize) -> Mapping
        requires { i < length (rows self) }
        ensures { result ≡ at (rows self) i };

    // What each `impl` must prove.
    ghost in_order: { (all : Self) → InOrder (rows all) };

    // The place of the first row that ends behind the byte address `x`; the number of rows where none does, which is the place
    // where one would be put in, and so no None.
    final fn first_ending_behind(self, x: u64) -> usize
        ensures { result ≡ first_where (ends_behind x) (rows self) }
    {
        halve(self, x).lo
    }

    // The row at place `first`, if there is one, starts at `to` or behind. Where it is the first one that ends behind `from`,
    // no row shares a byte with [from, to): those behind it start later.
    final fn is_free_from(self, first: usize, to: u64) -> bool
        ensures start { result ≡ true → first < length (rows self) → to ≤ (at (rows self) first).address }
        ensures free { (from : ℕ) → from < to → first ≡ first_where (ends_behind from) (rows self) → result ≡ all (free_tests from to (rows self)) }
    {
        self.number() <= first || to <= self.row(first).address
    }
}

// One step of the search: a look at the row in the middle, unless nothing is left.
fn step<R: Rows>(all: R, s: Search, x: u64) -> Search
    requires { Steppable (R.rows all) s }
    ensures { result ≡ step (R.rows all) x s }
{
    if s.left == 0 {
        return s;
    }
    s.halved(all.row(s.middle()), x)
}

// The search for `x` by halves, which may be used since ends ascend: no more looks than the number of rows has binary
// digits. The steps for the most rows are written down, so that the compiler sets them one behind the other, each with a
// conditional move: in a loop it makes a branch of the look, and half of the time an address that nobody foresaw goes the
// other way (docs/BENCHMARKS.md has the figures).
fn halve<R: Rows>(all: R, x: u64) -> Search
    ensures { (result ≡ halving (R.rows all) x) × (result.looks ≤ binary_digits (length (R.rows all))) }
{
    let mut s = Search {
        lo: 0,
        left: all.number(),
        looks: 0,
    };
    for _ in 0..R::MOST_STEPS {
        s = step(all, s, x);
    }
    while 0 < s.left {
        s = step(all, s, x);
    }
    s
}

// A table that passed its check: its mappings keep their rules in some space, and so in the widest one.
#[derive(Clone, Copy)]
pub struct Table<'a> {
    pub words: &'a [u64],
    pub count: usize,
    ghost held: { 4 * count ≤ length words.now },
    ghost kept: { bad_place widest 0 (mappings_in count words.now) ≡ count },
}

impl Rows for Table<'_> {
    ghost rows = { λ t. mappings_in t.count t.words.now };

    ghost in_order = { λ t. kept_order t.words.now t.count t.kept };

    // The binary digits of 4,096, the most mappings that a table has.
    const MOST_STEPS: usize = 13;

    fn number(self) -> usize {
        self.count
    }

    fn row(self, i: usize) -> Mapping {
        read_mapping(self.words, i)
    }
}

impl<'a> Table<'a> {
    ghost use Rattle.table.specs.Held.{mappings_held};

    #[tactic(auto, using(crate::proofs::Kept::widest_kept))]
    pub fn new(words: &'a [u64], count: usize) -> Table<'a>
        requires { Valid words.now count }
        ensures { mappings_held result ≡ mappings_in count words.now }
    {
        Table { words, count }
    }

    // No mapping before place `i` ends behind `x`.
    fn passes(&self, i: usize, x: u64) -> bool
        requires { i ≤ self.now.count }
        ensures { result ≡ true → i ≤ first_where (ends_behind x) (mappings_held self.now) }
    {
        if i == 0 {
            return true;
        }
        let m = self.row(i - 1);
        m.address + m.size <= x
    }

    // The mapping at place `i` ends behind `x`, or there is none.
    fn reaches(&self, i: usize, x: u64) -> bool
        requires { i ≤ self.now.count }
        ensures { (result ≡ true → first_where (ends_behind x) (mappings_held self.now) ≤ i) × (result ≡ false → i < first_where (ends_behind x) (mappings_held self.now)) }
    {
        if i < self.count {
            let m = self.row(i);
            return x < m.address + m.size;
        }
        true
    }

    // The place of the first mapping that ends behind `x`, which may be `near` or the next one: so it mostly is for a request
    // that comes right behind another or takes it back. Else it is searched for.
    pub fn first_near(&self, x: u64, near: usize) -> usize
        ensures { result ≡ first_where (ends_behind x) (mappings_held self.now) }
    {
        if near < self.count {
            if self.passes(near, x) {
                if self.reaches(near, x) {
                    return near;
                }
                if self.reaches(near + 1, x) {
                    return near + 1;
                }
            }
        }
        self.first_ending_behind(x)
    }

    // No mapping shares a byte with [from, to).
    pub fn is_free(&self, from: u64, to: u64) -> bool
        requires { from < to }
        ensures { result ≡ all (free_tests from to (mappings_held self.now)) }
    {
        self.is_free_from(self.first_ending_behind(from), to)
    }

    // What a look-up sees at the byte address `x` in the table alone, beside no ranges. One search: no mapping but the first
    // that ends behind `x` can have it or be the next one.
    pub fn see(&self, s: Space, x: u64) -> Seen
        requires { KeptIn s (mappings_held self.now) }
        ensures { result ≡ see s [] (mappings_held self.now) x }
    {
        if !in_space(s, x) {
            return nothing(0);
        }
        let i = self.first_ending_behind(x);
        let count = self.count;
        if i == count {
            return nothing(s.start + s.size - x);
        }
        seen_by(self.row(i), x)
    }
}

// 1 for a mapping, 0 for none.
fn one_or_none(m: Option<Mapping>) -> usize
    ensures { (result ≡ length (option_to_list m)) × (result ≤ 1) }
{
    usize::from(m.is_some())
}

// How many mappings take the place.
pub fn replacement_length(new: Replacement) -> usize
    ensures { (result ≡ length (mappings_of new)) × (result ≤ 3) }
{
    one_or_none(new.lower) + one_or_none(new.new) + one_or_none(new.upper)
}

// Writes a mapping at place `i`, if there is one; answers the place behind.
fn write_part(t: &mut [u64], i: usize, part: Option<Mapping>) -> usize
    requires { 4 * (i + length (option_to_list part)) ≤ length t.old }
    ensures { (t.new ≡ stored t.old (4 * i) (flat_map words_of (option_to_list part))) × (result ≡ i + length (option_to_list part)) }
{
    let Some(m) = part else {
        return i;
    };
    write_mapping(t, i, m);
    i + 1
}

// Writes the mappings from place `i` on, one behind the other.
fn write_replacement(t: &mut [u64], i: usize, new: Replacement)
    requires { 4 * (i + length (mappings_of new)) ≤ length t.old }
    ensures { t.new ≡ stored t.old (4 * i) (flat_map words_of (mappings_of new)) }
{
    let second = write_part(t, i, new.lower);
    let third = write_part(t, second, new.new);
    write_part(t, third, new.upper);
}

// Makes the words behind the last of `after` mappings zero, where there were `count`: those of the mappings that are gone.
// Behind them words are zero already. Mostly one is gone, which is stored by itself: of the others the compiler makes a
// call of memset, whose wide registers can slow down what comes next.
fn clear_behind(t: &mut [u64], count: usize, after: usize)
    requires { (4 * count ≤ length t.old) × (4 * after ≤ length t.old) × ZeroFrom t.old (4 * max count after) }
    ensures { t.new ≡ cleared t.old (4 * after) }
{
    if after < count {
        words::store(t, 4 * after, &[0, 0, 0, 0]);
        words::clear(t, 4 * (after + 1), 4 * count)
    }
}

// The mappings from place `lo` up to `hi` give way to the new ones, in place; the words behind the last mapping stay zero.
// What writes takes words and a count: between two stores the table keeps no rule, as a `Table` must.
pub fn splice(t: &mut [u64], count: usize, lo: usize, hi: usize, new: Replacement)
    requires { Splice t.old count lo hi new }
    ensures { t.new ≡ written (length t.old) (spliced (mappings_in count t.old) lo hi (mappings_of new)) }
{
    let to = lo + replacement_length(new);
    let rest = count - hi;
    words::move_run(t, 4 * hi, 4 * to, 4 * rest);
    write_replacement(t, lo, new);
    clear_behind(t, count, to + rest)
}
