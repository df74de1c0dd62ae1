// A list of sparse ranges in lent words, two words each: checked, searched by halves, and changed by one range in place.
#![tactic(auto)]

ghost use Rattle.std.specs.Prelude.{◌≡◌, true, map, ◌+◌, ◌*◌, ◌≤◌, ◌<◌, length, slice_get};
ghost use Rattle.model.specs.Rows.{all};
ghost use Rattle.model.specs.Rules.{limit};
ghost use Rattle.model.specs.Ranges.{ranges_in, list_written, range_end, list_tests, length_tests, list_row};
ghost use Rattle.words.specs.Words.{ZeroFrom};
ghost use Rattle.table.specs.Places.{widest};
ghost use Rattle.ranges.specs.Lists.{lent_list, range_at, as_mapping, ValidList};
ghost use Rattle.ranges.specs.Kept.{kept_order};
ghost use Rattle.ranges.specs.Changes.{outcome_of, put_in, taken_out, added, removed};
ghost use Rattle.ranges.specs.Beside.{beside_off, beside};

use model::{Mapping, Range, Refusal, Seen, Shown, Space};
use rules::CheckedSpace;
use table::Rows;

// Document 02: a list is of even length up to so many words.
const MOST_WORDS: usize = 128;

// The range at place `i`. It is no twin of `table::mapping_from`, which makes another type of four words.
pub fn range_at(list: &[u64], i: usize) -> Range
    requires { 2 * i + 2 ≤ length list.now }
    ensures { result ≡ range_at list.now i }
{
    Range {
        start: list[2 * i],
        size: list[2 * i + 1],
    }
}

// The count can be held, in words of a right length.
fn length_is_right(list: &[u64], count: usize) -> bool
    ensures { result ≡ all (length_tests (lent_list list.now count)) }
{
    let n = list.len();
    (n % 2 == 0) & (n <= MOST_WORDS) & (count <= n / 2)
}

// Each range keeps its rules, and starts where its forerunner ends or later. `inspect::first_bad` goes so over mappings, by
// other rules, and answers a place.
fn all_fit(s: Space, list: &[u64], count: usize) -> bool
    requires { (s.start + s.size ≤ limit) × (2 * count ≤ length list.now) }
    ensures { result ≡ all (list_tests s 0 (ranges_in count list.now)) }
{
    let mut end: u64 = 0;
    for row in list[..2 * count].as_chunks::<2>().0 {
        let y = range_at(row, 0);
        if !rules::range_fits(s, end, y) {
            return false;
        }
        end = y.start + y.size;
    }
    true
}

// Row 18: the list keeps its rules.
pub fn keeps_rules(s: CheckedSpace, list: &[u64], count: usize) -> bool
    ensures { result ≡ all (list_row s.space (lent_list list.now count)).tests }
{
    if list.is_empty() {
        return count == 0;
    }
    length_is_right(list, count)
        && all_fit(s.space, list, count)
        && words::are_zero_from(list, 2 * count)
}

// A range as the search by halves takes it: as a mapping, whose object plays no part.
fn as_mapping(y: Range) -> Mapping
    ensures { result ≡ as_mapping y }
{
    Mapping {
        address: y.start,
        size: y.size,
        ..Mapping::default()
    }
}

// A list that passed its check: it keeps its rules in some space, and so in the widest one.
#[derive(Clone, Copy)]
pub struct RangeList<'a> {
    pub words: &'a [u64],
    pub count: usize,
    ghost kept: { all (list_row widest (lent_list words.now count)).tests ≡ true },
}

impl Rows for RangeList<'_> {
    ghost rows = { λ l. map as_mapping (ranges_in l.count l.words.now) };

    ghost in_order = { λ l. kept_order l.words.now l.count l.kept };

    // The binary digits of 64, the most ranges that a list has.
    const MOST_STEPS: usize = 7;

    fn number(self) -> usize {
        self.count
    }

    fn row(self, i: usize) -> Mapping {
        as_mapping(range_at(self.words, i))
    }
}

impl<'a> RangeList<'a> {
    ghost use Rattle.ranges.specs.Held.{ranges_held};

    pub fn new(words: &'a [u64], count: usize) -> RangeList<'a>
        requires { ValidList words.now count }
        ensures { ranges_held result ≡ ranges_in count words.now }
    {
        RangeList { words, count }
    }

    // The range at place `i`, if there is one.
    fn get(&self, i: usize) -> Option<Range>
        ensures { result ≡ slice_get (ranges_held self.now) i }
    {
        if i < self.count {
            return Some(range_at(self.words, i));
        }
        None
    }

    // What is seen at `x` off all mappings, where these alone would let it go on for so many bytes: the first range that
    // ends behind `x` has it or is the next one. Distances are compared, and no sum of them is made.
    fn off_mappings(&self, x: u64, bytes: u64) -> Seen
        ensures { result ≡ beside_off (ranges_held self.now) x bytes }
    {
        let i = self.first_ending_behind(x);
        let Some(y) = self.get(i) else {
            return Seen {
                shown: Shown::Nothing,
                bytes,
            };
        };
        if x < y.start {
            return Seen {
                shown: Shown::Nothing,
                bytes: bytes.min(y.start - x),
            };
        }
        Seen {
            shown: Shown::Sparse,
            bytes: bytes.min(y.start + y.size - x),
        }
    }

    // What is seen at `x` beside the list, where a table alone shows `seen`.
    pub fn beside(&self, x: u64, seen: Seen) -> Seen
        ensures { result ≡ beside (ranges_held self.now) x seen }
    {
        if self.count == 0 {
            return seen;
        }
        match seen.shown {
            Shown::Nothing => self.off_mappings(x, seen.bytes),
            _ => seen,
        }
    }
}

// Puts a range in at place `i`: those from there on move up by one place. What writes takes words and a count: between two
// stores the list keeps no rule, as a `RangeList` must.
fn put_in(list: &mut [u64], count: usize, i: usize, x: Range)
    requires { (i ≤ count) × (2 * count + 2 ≤ length list.old) × ZeroFrom list.old (2 * count) }
    ensures { list.new ≡ list_written (length list.old) (put_in x i (ranges_in count list.old)) }
{
    words::copy_run(list, 2 * i, 2 * i + 2, 2 * (count - i));
    words::store(list, 2 * i, &[x.start, x.size])
}

// Takes the range at place `i` out: those behind it move down by one place, and the words of the last become zero.
fn take_out(list: &mut [u64], count: usize, i: usize)
    requires { (i < count) × (2 * count ≤ length list.old) × ZeroFrom list.old (2 * count) }
    ensures { list.new ≡ list_written (length list.old) (taken_out i (ranges_in count list.old)) }
{
    let after = count - 1;
    words::copy_run(list, 2 * i + 2, 2 * i, 2 * (after - i));
    words::store(list, 2 * after, &[0, 0])
}

// One range more, in its place: refused where it shares a byte with one of the list, or the list is full.
pub fn add(list: &mut [u64], count: usize, range: Range) -> Result<(), Refusal>
    requires { ValidList list.old count × (0 < range.size) × (range_end range ≤ limit) }
    ensures { outcome_of result list.new ≡ added range (lent_list list.old count) }
{
    let held = RangeList::new(list, count);
    let i = held.first_ending_behind(range.start);
    if !held.is_free_from(i, range.start + range.size) {
        return Err(Refusal::RangeOverlaps);
    }
    if list.len() / 2 <= count {
        return Err(Refusal::NoRoom);
    }
    put_in(list, count, i, range);
    Ok(())
}

// One range less: refused where no range has exactly that start and size.
pub fn remove(list: &mut [u64], count: usize, range: Range) -> Result<(), Refusal>
    requires { ValidList list.old count }
    ensures { outcome_of result list.new ≡ removed range (lent_list list.old count) }
{
    let held = RangeList::new(list, count);
    let i = held.first_ending_behind(range.start);
    // No other range can be it.
    if held.get(i) != Some(range) {
        return Err(Refusal::NoSuchRange);
    }
    take_out(list, count, i);
    Ok(())
}
