// The check of a table (rows 2, 4, 5 and 17): a quick pass that tells mappings in order, an exact one that finds the
// place, and a look at the words behind them.
#![tactic(auto)]

ghost use Rattle.std.specs.Prelude.{◌≡◌, ◌+◌, ◌*◌, ◌%◌, ◌≤◌, true, length};
ghost use Rattle.model.specs.Rows.{all, verdict};
ghost use Rattle.model.specs.Rules.{page, limit};
ghost use Rattle.model.specs.Table.{mappings_in, bad_place, length_row, content_rows};
ghost use Rattle.model.specs.Calls.{reply_of};
ghost use Rattle.table.specs.Places.{lent};
ghost use Rattle.table.specs.Held.{mappings_held};
ghost use Rattle.inspect.specs.Bad.{FirstBad};
ghost use Rattle.inspect.specs.Joined.{Clean, Floor, Fits};
ghost use Rattle.inspect.specs.Part.{up_to};
ghost use Rattle.inspect.specs.Rows.{own_rows};

use model::{Mapping, Refusal};
use rules::CheckedSpace;
use table::{Rows, Table};

// Document 02: a table has room for 1 to so many mappings.
const MOST_MAPPINGS: usize = 4096;

// The words of mappings joined bit by bit, for an address the gap before it, and differences that their rules ask to be
// from 0 up to 2^48: one look at the end tells of all of them, without a branch for each.
#[derive(Clone, Copy, Default)]
struct Joined {
    bits: u64,
    objects: u64,
    differences: u64,
}

impl Joined {
    // One mapping more, which is to start at `from` or behind. A difference below zero wraps to a very large number. The last
    // one is where the mapping's last byte is in its object. Behind a `from` on a page, a gap on a page makes an address on
    // one.
    fn join(self, from: u64, m: Mapping) -> Joined
        ensures { Clean result → Clean self × (Floor from → Fits from m) }
    {
        let last_byte = m.size.wrapping_sub(1);
        Joined {
            bits: self.bits | m.address.wrapping_sub(from) | m.size | m.offset,
            objects: self.objects | m.object,
            differences: self.differences
                | last_byte
                | m.object.wrapping_sub(1)
                | m.offset.wrapping_add(last_byte),
        }
    }

    // The mappings that were joined keep their rules if this says so. If it does not, nothing is known of a single one.
    fn all_keep_rules(self) -> bool
        ensures { result ≡ true → Clean self }
    {
        rules::is_aligned(self.bits)
            & (self.bits <= rules::LIMIT)
            & (self.objects <= rules::LAST_OBJECT)
            & (self.differences < rules::LIMIT)
    }
}

// The lowest place of a mapping that breaks its rules or overlaps or precedes its forerunner, if there is one.
fn first_bad(s: CheckedSpace, t: &[u64], count: usize) -> Option<usize>
    requires { 4 * count ≤ length t.now }
    ensures { FirstBad (bad_place s.space 0 (mappings_in count t.now)) count result }
{
    let mut end: u64 = 0;
    for (place, row) in t[..4 * count].as_chunks::<4>().0.iter().enumerate() {
        let m = table::mapping_from(row, 0);
        if !rules::mapping_fits(s.space, end, m) {
            return Some(place);
        }
        end = m.address + m.size;
    }
    None
}

// All mappings keep their rules between `from` and `stop`, where nothing is reserved, if this says so: one look at their
// joined words. Gaps and sizes of at most 2^48 make no end that wraps, of so few mappings: the last one is the largest.
fn all_fit(t: &[u64], count: usize, from: u64, stop: u64) -> bool
    requires { (4 * count ≤ length t.now) × (from ≤ limit) × (from % page ≡ 0) }
    ensures { result ≡ true → bad_place (up_to stop) from (mappings_in count t.now) ≡ count }
{
    let mut end = from;
    let mut seen = Joined::default();
    for row in t[..4 * count].as_chunks::<4>().0 {
        let m = table::mapping_from(row, 0);
        seen = seen.join(end, m);
        end = m.address.wrapping_add(m.size);
    }
    seen.all_keep_rules() & (end <= stop) & (count <= MOST_MAPPINGS)
}

// No mapping of the table shares a byte with the reservation if this says so. The reservation then makes no difference to the
// check.
fn spares_reservation(s: CheckedSpace, table: &Table) -> bool
    ensures { result ≡ true → bad_place s.space 0 (mappings_held table.now) ≡ bad_place (up_to (s.space.start + s.space.size)) s.space.start (mappings_held table.now) }
{
    let start = s.space.reserved.start;
    let end = start + s.space.reserved.size;
    let first = table.first_ending_behind(start);
    table.is_free_from(first, end)
}

// What `first_bad` answers. A quick pass tells a table that is in order; only any other is gone through mapping by mapping.
fn bad_place(s: CheckedSpace, t: &[u64], count: usize) -> Option<usize>
    requires { 4 * count ≤ length t.now }
    ensures { FirstBad (bad_place s.space 0 (mappings_in count t.now)) count result }
{
    if all_fit(t, count, s.space.start, s.space.start + s.space.size) {
        let table = Table::new(t, count);
        if spares_reservation(s, &table) {
            return None;
        }
    }
    first_bad(s, t, count)
}

// Row 2. The count plays no part.
pub fn length_is_right(t: &[u64]) -> bool
    ensures { result ≡ all (length_row (lent t.now 0)).tests }
{
    let n = t.len();
    (0 < n) & (n % 4 == 0) & (n <= 4 * MOST_MAPPINGS)
}

// Rows 4, 5 and 17, of words and a count as they are lent: a `Table` is one that passed.
pub fn contents_verdict(s: CheckedSpace, t: &[u64], count: usize) -> Result<(), Refusal>
    ensures { reply_of result ≡ verdict (content_rows s.space (lent t.now count)) }
{
    if t.len() / 4 < count {
        return Err(Refusal::BadCount);
    }
    if let Some(place) = bad_place(s, t, count) {
        return Err(Refusal::BadMapping(place));
    }
    if !words::are_zero_from(t, 4 * count) {
        return Err(Refusal::StaleWords);
    }
    Ok(())
}

// The check of a table: rows 2, 4, 5 and 17.
pub fn table_verdict(s: CheckedSpace, t: &[u64], count: usize) -> Result<(), Refusal>
    ensures { reply_of result ≡ verdict (own_rows s.space (lent t.now count)) }
{
    if !length_is_right(t) {
        return Err(Refusal::BadTableLength);
    }
    contents_verdict(s, t, count)
}
