// The rules of a space, a mapping, a sparse range and a request, for any 64-bit numbers: each function is the model's
// tests, in their order, most with & between them: no branch. Sums are compared exactly, and none is made that could wrap.
#![tactic(auto)]

ghost use Rattle.std.specs.Prelude.{◌≡◌, true, ◌+◌, leb};
ghost use Rattle.model.specs.Rows.{all, verdict};
ghost use Rattle.model.specs.Rules.{aligned, apart, space_tests, form_rows, request_rows, alignment_row, inside_row, object_row, offset_row};
ghost use Rattle.model.specs.Table.{fit_tests};
ghost use Rattle.model.specs.Ranges.{range_tests};
ghost use Rattle.model.specs.Calls.{numbered, reply_of};

use model::{Mapping, Range, Refusal, Request, Space};

const PAGE: u64 = 4096;

// Where a space, and an offset plus size, end at the latest.
pub const LIMIT: u64 = 0x1_0000_0000_0000;

pub const LAST_OBJECT: u64 = 0xffff_ffff;

// The flag of a request for a sparse range.
pub const SPARSE: u64 = 256;

pub fn is_aligned(x: u64) -> bool
    ensures { result ≡ aligned x }
{
    x % PAGE == 0
}

// a + b is at most c + d.
fn sum_at_most(a: u64, b: u64, c: u64, d: u64) -> bool
    ensures { result ≡ leb (a + b) (c + d) }
{
    u128::from(a) + u128::from(b) <= u128::from(c) + u128::from(d)
}

// a + b is at most `most`.
fn sum_within(a: u64, b: u64, most: u64) -> bool
    ensures { result ≡ leb (a + b) most }
{
    b <= most && a <= most - b
}

// [a, a + n) and [c, c + m) share no byte: one of them ends at or before the greater start.
fn are_apart(a: u64, n: u64, c: u64, m: u64) -> bool
    ensures { result ≡ apart a (a + n) c (c + m) }
{
    let start = a.max(c);
    sum_within(a, n, start) | sum_within(c, m, start)
}

// The space keeps its rules.
pub fn space_keeps_rules(s: Space) -> bool
    ensures { result ≡ all (space_tests s) }
{
    let whole = is_aligned(s.start)
        & is_aligned(s.size)
        & is_aligned(s.reserved.start)
        & is_aligned(s.reserved.size)
        & (PAGE <= s.size)
        & sum_within(s.start, s.size, LIMIT);
    if s.reserved.size == 0 {
        return whole & (s.reserved.start == 0);
    }
    whole
        & (s.start <= s.reserved.start)
        & sum_at_most(s.reserved.start, s.reserved.size, s.start, s.size)
}

// A space that passed its check: it keeps its rules.
#[derive(Clone, Copy)]
pub struct CheckedSpace {
    pub space: Space,
    ghost kept: { all (space_tests space) ≡ true },
}

impl CheckedSpace {
    pub fn new(space: Space) -> CheckedSpace
        requires { all (space_tests space) ≡ true }
        ensures { result.space ≡ space }
    {
        CheckedSpace { space }
    }
}

// The mapping keeps its rules, and starts at `from` or behind.
pub fn mapping_fits(s: Space, from: u64, m: Mapping) -> bool
    ensures { result ≡ all (fit_tests s from m) }
{
    (from <= m.address)
        & is_aligned(m.address)
        & is_aligned(m.size)
        & is_aligned(m.offset)
        & (PAGE <= m.size)
        & (1 <= m.object)
        & (m.object <= LAST_OBJECT)
        & sum_within(m.offset, m.size, LIMIT)
        & (s.start <= m.address)
        & sum_at_most(m.address, m.size, s.start, s.size)
        & are_apart(m.address, m.size, s.reserved.start, s.reserved.size)
}

// The sparse range keeps its rules, and starts at `from` or behind.
pub fn range_fits(s: Space, from: u64, x: Range) -> bool
    ensures { result ≡ all (range_tests s from x) }
{
    (from <= x.start)
        & is_aligned(x.start)
        & is_aligned(x.size)
        & (0 < x.size)
        & (s.start <= x.start)
        & sum_at_most(x.start, x.size, s.start, s.size)
        & are_apart(x.start, x.size, s.reserved.start, s.reserved.size)
}

fn range_is_aligned(r: Request) -> bool
    ensures { result ≡ all (alignment_row r).tests }
{
    is_aligned(r.address) & is_aligned(r.size) & is_aligned(r.offset) & (0 < r.size)
}

fn range_is_inside(s: Space, r: Request) -> bool
    ensures { result ≡ all (inside_row s r).tests }
{
    (s.start <= r.address) & sum_at_most(r.address, r.size, s.start, s.size)
}

fn object_is_right(r: Request) -> bool
    ensures { result ≡ all (object_row r).tests }
{
    if r.op == 0 && r.flags == 0 {
        return 1 <= r.object && r.object <= LAST_OBJECT;
    }
    r.object == 0 && r.offset == 0
}

fn offset_is_right(r: Request) -> bool
    ensures { result ≡ all (offset_row r).tests }
{
    r.op != 0 || sum_within(r.offset, r.size, LIMIT)
}

// Rows 13 and 14: the form of a request. Flags are 0, or those that are served, a number as `form_rows` takes it.
#[tactic(auto, unfolding(model::specs::Rows::decide, model::specs::Rules::form_rows))]
pub fn form_verdict(r: Request, served: u64) -> Result<(), Refusal>
    ensures { reply_of result ≡ verdict (form_rows served r) }
{
    if 1 < r.op {
        return Err(Refusal::BadOp);
    }
    if (r.flags != 0 && r.flags != served) || r.pad != 0 {
        return Err(Refusal::BadFlags);
    }
    Ok(())
}

// Rows 6 to 10: what a request asks of a space.
#[tactic(auto, unfolding(model::specs::Rows::decide, model::specs::Rules::request_rows))]
pub fn request_verdict(s: Space, r: Request) -> Result<(), Refusal>
    ensures { reply_of result ≡ verdict (request_rows s r) }
{
    if !range_is_aligned(r) {
        return Err(Refusal::Unaligned);
    }
    if !range_is_inside(s, r) {
        return Err(Refusal::OutsideSpace);
    }
    if !are_apart(r.address, r.size, s.reserved.start, s.reserved.size) {
        return Err(Refusal::Reserved);
    }
    if !object_is_right(r) {
        return Err(Refusal::BadObject);
    }
    if !offset_is_right(r) {
        return Err(Refusal::BadOffset);
    }
    Ok(())
}

// A refusal's number in document 01's table, for C: a variant that holds a place has no discriminant to cast.
pub fn refusal_number(w: Refusal) -> u32
    ensures { result ≡ (numbered w).0 }
{
    match w {
        Refusal::BadSpace => 1,
        Refusal::BadTableLength => 2,
        Refusal::ShortOperations => 3,
        Refusal::BadCount => 4,
        Refusal::BadMapping(_) => 5,
        Refusal::Unaligned => 6,
        Refusal::OutsideSpace => 7,
        Refusal::Reserved => 8,
        Refusal::BadObject => 9,
        Refusal::BadOffset => 10,
        Refusal::NoRoom => 11,
        Refusal::BadRecordLength => 12,
        Refusal::BadOp => 13,
        Refusal::BadFlags => 14,
        Refusal::BadWorkLength => 15,
        Refusal::ShortOutput => 16,
        Refusal::StaleWords => 17,
        Refusal::BadRanges => 18,
        Refusal::RangeOverlaps => 19,
        Refusal::NoSuchRange => 20,
    }
}

// The place that a refusal answers: 5 has its mapping's, the others 0.
pub fn refusal_place(w: Refusal) -> usize
    ensures { result ≡ (numbered w).1 }
{
    match w {
        Refusal::BadMapping(place) => place,
        _ => 0,
    }
}
