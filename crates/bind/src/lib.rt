// The public calls on a table and a list of sparse ranges: any space, any words, any counts and any numbers get the
// answer, and leave the words, that the model gives. Words and counts are lent one by one, as C has them and as the equations
// that are promised name them.
#![tactic(auto)]

ghost use Rattle.std.specs.Prelude.{◌≡◌, List, ℕ, ◌<◌};
ghost use Rattle.model.specs.Calls.{asked, bytes, range_of, adds, removes, purpose, bind, lookup, reply_of};
ghost use Rattle.request.specs.Bound.{lent_words, Relistable, decided};
ghost use Rattle.bind.specs.Asked.{numbers_of};

use model::{Grant, Range, Refusal, Request, Seen, Space};
use ranges::RangeList;
use request::Lent;
use table::Table;

// A request by its numbers: op 0 maps, op 1 unmaps, another is refused.
#[repr(C)]
#[derive(Clone, Copy)]
pub struct Numbers {
    pub op: u64,
    pub address: u64,
    pub size: u64,
    pub object: u64,
    pub offset: u64,
}

impl From<Numbers> for Request {
    ghost from_gives = { λ q r. r ≡ asked (numbers_of q) };

    fn from(q: Numbers) -> Request {
        Request {
            op: q.op,
            flags: 0,
            object: q.object,
            pad: 0,
            address: q.address,
            offset: q.offset,
            size: q.size,
        }
    }
}

// What the byte address `x` shows in a table of `count` mappings, beside a list of sparse ranges, and for how many bytes,
// or the first of the refusals 1, 2, 4, 5, 17 and 18.
pub fn lookup(
    s: Space,
    ranges: &[u64],
    range_count: usize,
    table: &[u64],
    count: usize,
    x: u64,
) -> Result<Seen, Refusal>
    ensures { reply_of result ≡ lookup s (lent_words ranges.now range_count table.now count) x }
{
    let lent = Lent {
        ranges,
        range_count,
        table,
        count,
    };
    lent.lookup_verdict(s)?;
    let alone = Table::new(table, count).see(s, x);
    Ok(RangeList::new(ranges, range_count).beside(x, alone))
}

// The range of a request. Both types are another crate's, so this is no `From`.
fn range_of(r: Request) -> Range
    ensures { result ≡ range_of r }
{
    Range {
        start: r.address,
        size: r.size,
    }
}

// A map with the flag that passed them: rows 19 and 11, or a range more.
fn add_range(
    r: Request,
    ranges: &mut [u64],
    range_count: usize,
    table: &[u64],
    count: usize,
) -> Result<Grant, Refusal>
    requires { Relistable r (lent_words ranges.old range_count table.now count) }
    ensures { (os : List ℕ) → decided adds r (lent_words ranges.old range_count table.now count) os ≡ record { answer = reply_of result; table = table.now; ranges = ranges.new; operations = os } }
{
    ranges::add(ranges, range_count, range_of(r))?;
    Ok(Grant {
        operations: 0,
        count,
        ranges: range_count + 1,
    })
}

// An unmap with the flag that passed them: row 20, or a range less.
fn remove_range(
    r: Request,
    ranges: &mut [u64],
    range_count: usize,
    table: &[u64],
    count: usize,
) -> Result<Grant, Refusal>
    requires { Relistable r (lent_words ranges.old range_count table.now count) }
    ensures { (os : List ℕ) → decided removes r (lent_words ranges.old range_count table.now count) os ≡ record { answer = reply_of result; table = table.now; ranges = ranges.new; operations = os } }
{
    if !Table::new(table, count).is_free(r.address, r.address + r.size) {
        return Err(Refusal::NoSuchRange);
    }
    ranges::remove(ranges, range_count, range_of(r))?;
    Ok(Grant {
        operations: 0,
        count,
        ranges: range_count - 1,
    })
}

// One with the flag, behind those rows: rows 19, 20 and 11, and the list. `Relistable` is the fact of no type: the list is lent
// to write, and a ghost field beside a `&mut` has to stay true at each write.
fn relist(
    r: Request,
    ranges: &mut [u64],
    range_count: usize,
    table: &[u64],
    count: usize,
) -> Result<Grant, Refusal>
    requires { (0 < r.flags) × Relistable r (lent_words ranges.old range_count table.now count) }
    ensures { (os : List ℕ) → decided (purpose r) r (lent_words ranges.old range_count table.now count) os ≡ record { answer = reply_of result; table = table.now; ranges = ranges.new; operations = os } }
{
    if r.op == 0 {
        add_range(r, ranges, range_count, table, count)
    } else {
        remove_range(r, ranges, range_count, table, count)
    }
}

// Maps or unmaps a range, by the request's numbers: the first of the refusals 13, 1 to 5, 17, 18, 6 to 11, and then no word
// changes; or a grant, the table as it is afterwards, and the operations for the driver from the first word on.
pub fn bind(
    s: Space,
    ranges: &[u64],
    range_count: usize,
    table: &mut [u64],
    count: usize,
    operations: &mut [u64],
    q: Numbers,
) -> Result<Grant, Refusal>
    ensures { bind s (lent_words ranges.now range_count table.old count) operations.old (numbers_of q) ≡ record { answer = reply_of result; table = table.new; ranges = ranges.now; operations = operations.new } }
{
    let r = Request::from(q);
    rules::form_verdict(r, rules::SPARSE)?;
    request::bind_request(s, ranges, range_count, table, count, operations, r)
}

// The same by the bytes of a record, which may have the sparse flag and then changes the list alone: the refusals 12, 13,
// 14, 1 to 5, 17, 18, 6 to 10, 19, 20, 11.
pub fn bind_record(
    s: Space,
    ranges: &mut [u64],
    range_count: usize,
    table: &mut [u64],
    count: usize,
    operations: &mut [u64],
    record: &[u8],
) -> Result<Grant, Refusal>
    ensures { bind s (lent_words ranges.old range_count table.old count) operations.old (bytes «record».now) ≡ record { answer = reply_of result; table = table.new; ranges = ranges.new; operations = operations.new } }
{
    let r = record::decode(record, rules::SPARSE)?;
    let grant = request::bind_request(s, ranges, range_count, table, count, operations, r)?;
    if r.flags == 0 {
        return Ok(grant);
    }
    relist(r, ranges, range_count, table, count)
}
