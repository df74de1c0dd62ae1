// A row of the program's table, read, and the words that a call is given or leaves for it.
ghost use Rattle.std.specs.Prelude.{◌≡◌, ◌≤◌, ◌↔◌, IfSome, IsTrue};
ghost use Rattle.model.specs.Table.{words_of};
ghost use Rattle.model.specs.Layout.{words_of_operation};
ghost use Rattle.model.specs.Drawings.{at};
ghost use Rattle.drawings.specs.declared.rows.TheConstants.{ROOM};
ghost use Rattle.drawings.specs.Rows.{mapping_words, operation_words, items, IsExpected};

use model::{Grant, Mapping, Operation, Refusal, Rests};
use std::str::SplitWhitespace;

pub(crate) const PAGE: u64 = 4096;

// The mappings that a table has room for, where its row says nothing else.
pub(crate) const ROOM: usize = 8;

// The operations that a call on such a table has room for.
pub(crate) const OPERATIONS: usize = ROOM + 1;

// What a row asks, and what it expects: the operations or a refusal, and the mappings afterwards. The
// refusal is a number, since the row's text has the number of document 01's table.
#[derive(Clone, Copy)]
pub(crate) struct Row<'a> {
    pub label: &'a str,
    pub room: usize,
    pub old: [Option<Mapping>; ROOM],
    pub request: Mapping,
    pub result: Result<[Option<Operation>; OPERATIONS], u32>,
    pub new: [Option<Mapping>; ROOM],
    ghost fits: { room ≤ ROOM },
}

impl<'a> Row<'a> {
    // The row that a line of the table is.
    pub(crate) fn parse(line: &'a str) -> Option<Row<'a>> {
        let mut columns = line.strip_prefix("| ")?.strip_suffix(" |")?.split(" | ");
        let (label, room) = label_and_room(columns.next()?)?;
        let old = list(columns.next()?, mapping)?;
        let request = mapping(columns.next()?)?;
        let result = result_in(columns.next()?)?;
        let new = list(columns.next()?, mapping)?;
        Some(Row {
            label,
            room,
            old,
            request,
            result,
            new,
        })
    }

    // Whether this is the answer that the row expects: no refusal of a row has a place, and there is
    // no list of sparse ranges.
    pub(crate) fn expects(&self, answer: Result<Grant, Refusal>) -> bool
        ensures { IsTrue result ↔ IsExpected self.now.result self.now.new answer }
    {
        match (answer, self.result) {
            (Ok(grant), Ok(operations)) => {
                grant.operations == count(&operations)
                    && grant.count == count(&self.new)
                    && grant.ranges == 0
            }
            (Err(refusal), Err(number)) => {
                rules::refusal_number(refusal) == number && rules::refusal_place(refusal) == 0
            }
            _ => false,
        }
    }
}

// How many items a list has.
pub(crate) fn count<T>(list: &[Option<T>]) -> usize
    ensures { result ≡ items list.now }
{
    list.iter().filter(|place| place.is_some()).count()
}

// A row's label, and the capacity behind it.
fn label_and_room(column: &str) -> Option<(&str, usize)>
    ensures { IfSome result (λ pair. pair.1 ≤ ROOM) }
{
    match column.split_once(", capacity ") {
        None => Some((column, ROOM)),
        Some((label, room)) => {
            let room = room.parse().ok()?;
            (room <= ROOM).then_some((label, room))
        }
    }
}

// The items of a column, or `none`.
fn list<T: Copy, const N: usize, F: Fn(&str) -> Option<T>>(
    column: &str,
    item: F,
) -> Option<[Option<T>; N]>
    requires { F.IsAlwaysCallable item }
{
    let mut items = [None; N];
    if column == "none" {
        return Some(items);
    }
    let mut texts = column.split(", ");
    for (place, text) in items.iter_mut().zip(&mut texts) {
        *place = Some(item(text)?);
    }
    texts.next().is_none().then_some(items)
}

// The operations, or the number of a refusal.
fn result_in(column: &str) -> Option<Result<[Option<Operation>; OPERATIONS], u32>> {
    match column.strip_prefix("refused ") {
        Some(number) => Some(Err(number.parse().ok()?)),
        None => Some(Ok(list(column, operation)?)),
    }
}

// A mapping, as `[0,2) 7@1`.
fn mapping(text: &str) -> Option<Mapping> {
    let (range, place) = text.split_once(' ')?;
    in_pages(range, place)
}

// An operation: its kind, keep, mapping, lower and upper rest.
fn operation(text: &str) -> Option<Operation> {
    let (kind, words) = text.split_once(" keep ")?;
    let mut words = words.split_whitespace();
    let keep = match words.next()? {
        "0" => false,
        "1" => true,
        _ => return None,
    };
    let named = in_pages(words.next()?, words.next()?)?;
    let lower = rest(&mut words)?;
    let upper = rest(&mut words)?;
    match (kind, keep, lower, upper) {
        ("map", false, None, None) => Some(Operation::Map(named)),
        ("unmap", _, None, None) => Some(Operation::Unmap(keep, named)),
        ("remap", _, Some(l), None) => Some(Operation::Remap(keep, named, Rests::Lower(l))),
        ("remap", _, None, Some(u)) => Some(Operation::Remap(keep, named, Rests::Upper(u))),
        ("remap", _, Some(l), Some(u)) => Some(Operation::Remap(keep, named, Rests::Both(l, u))),
        _ => None,
    }
}

// A rest, where `-` is an absent one.
fn rest(words: &mut SplitWhitespace<'_>) -> Option<Option<Mapping>> {
    match words.next()? {
        "-" => Some(None),
        range => Some(Some(in_pages(range, words.next()?)?)),
    }
}

// The mapping of two words, as `[0,2)` and `7@1`.
fn in_pages(range: &str, place: &str) -> Option<Mapping> {
    let (first, end) = range.strip_prefix('[')?.strip_suffix(')')?.split_once(',')?;
    let (object, offset) = place.split_once('@')?;
    Some(from_pages(
        first.parse().ok()?,
        end.parse().ok()?,
        object.parse().ok()?,
        offset.parse().ok()?,
    ))
}

fn from_pages(first: u32, end: u32, object: u32, offset: u32) -> Mapping
    ensures { words_of result ≡ at first end object offset }
{
    Mapping {
        address: u64::from(first) * PAGE,
        size: u64::from(end.saturating_sub(first)) * PAGE,
        object: u64::from(object),
        offset: u64::from(offset) * PAGE,
    }
}

// The words of a place in a table: a mapping's, or zeros.
pub(crate) fn mapping_words(place: Option<Mapping>) -> [u64; 4]
    ensures { result ≡ mapping_words place }
{
    let m = place.unwrap_or_default();
    [m.address, m.size, m.object, m.offset]
}

// The words of a place in an operation slice: an operation's, or nines.
pub(crate) fn operation_words(place: Option<Operation>) -> [u64; 14]
    ensures { result ≡ operation_words place }
{
    place.map_or([9; 14], words_of_operation)
}

// The words of an operation: its kind, its keep mark, the mapping that it names, and the lower and
// the upper rest, of which an absent one is four zeros. `cut` writes them too: what a row expects
// doesn't come from the code that it is compared with.
fn words_of_operation(operation: Operation) -> [u64; 14]
    ensures { result ≡ words_of_operation operation }
{
    let absent = Mapping::default();
    let (kind, keep, named, lower, upper) = match operation {
        Operation::Map(new) => (0, false, new, absent, absent),
        Operation::Remap(keep, old, Rests::Lower(lower)) => (1, keep, old, lower, absent),
        Operation::Remap(keep, old, Rests::Upper(upper)) => (1, keep, old, absent, upper),
        Operation::Remap(keep, old, Rests::Both(lower, upper)) => (1, keep, old, lower, upper),
        Operation::Unmap(keep, old) => (2, keep, old, absent, absent),
    };
    [
        kind,
        u64::from(keep),
        named.address,
        named.size,
        named.object,
        named.offset,
        lower.address,
        lower.size,
        lower.object,
        lower.offset,
        upper.address,
        upper.size,
        upper.object,
        upper.offset,
    ]
}
