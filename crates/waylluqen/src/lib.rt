// The C boundary: what a C or Rust driver links. host/include/waylluqen.h declares it.
// Numbers for refusals and for what is shown, and counts beside slices, are the C interface's. Counts are cast: std has no
// From between u64 and usize, and each cast is proved to lose nothing.
#![tactic(auto)]

ghost use Rattle.std.specs.Prelude.{◌≡◌};
ghost use Rattle.model.specs.Rows.{answered, verdict};
ghost use Rattle.model.specs.Calls.{numbered, reply_of, space_of, bytes, check_rows, check_request, bind, lookup};
ghost use Rattle.batches.specs.Batch.{bind_batch, batch_reply};
ghost use Rattle.pages.specs.Pages.{page_entries};
ghost use Rattle.waylluqen.specs.Words.{shown_words, translation_of, answer_of, left, batch_left, mapping_in, pages_of, pages_left};
ghost use Rattle.request.specs.Bound.{lent_words};
ghost use Rattle.bind.specs.Asked.{numbers_of};

use batches::BatchRefusal;
use bind::Numbers;
use model::{Grant, Mapping, Range, Refusal, Seen, Shown, Space};

// A space, as C hands it over: the C struct has the four numbers flat, and a Space's reservation is a Range, so this is no
// model::Space. The edit reservation_swapped holds the conversion.
#[repr(C)]
#[derive(Clone, Copy)]
pub struct SpaceWords {
    pub start: u64,
    pub size: u64,
    pub reserved_start: u64,
    pub reserved_size: u64,
}

impl From<SpaceWords> for Space {
    ghost from_gives = { λ w s. s ≡ space_of w.start w.size w.reserved_start w.reserved_size };

    fn from(words: SpaceWords) -> Space {
        Space {
            start: words.start,
            size: words.size,
            reserved: Range {
                start: words.reserved_start,
                size: words.reserved_size,
            },
        }
    }
}

// What a look-up answers C. Refusal 0: it is answered, `shown` is 0 where the address shows nothing, 1 where it shows an
// object, 2 where it is sparse, and `bytes` is for how many bytes from there on that goes on in the same way.
#[repr(C)]
#[derive(Clone, Copy, Default)]
pub struct Translation {
    pub refusal: u64,
    pub place: u64,
    pub shown: u64,
    pub object: u64,
    pub offset: u64,
    pub bytes: u64,
}

impl From<Seen> for Translation {
    ghost from_gives = { λ v t. t ≡ shown_words v.shown v.bytes };

    fn from(seen: Seen) -> Translation {
        let nothing = Translation {
            bytes: seen.bytes,
            ..Translation::default()
        };
        match seen.shown {
            Shown::Nothing => nothing,
            Shown::Sparse => Translation {
                shown: 2,
                ..nothing
            },
            Shown::Object(object, offset) => Translation {
                shown: 1,
                object,
                offset,
                ..nothing
            },
        }
    }
}

// A refusal's number and its place.
fn refusal_words(w: Refusal) -> (u64, u64)
    ensures { result ≡ numbered w }
{
    (
        u64::from(rules::refusal_number(w)),
        rules::refusal_place(w) as u64,
    )
}

impl From<Result<Seen, Refusal>> for Translation {
    ghost from_gives = { λ a t. t ≡ translation_of (reply_of a) };

    fn from(answer: Result<Seen, Refusal>) -> Translation {
        match answer {
            Ok(seen) => Translation::from(seen),
            Err(refusal) => {
                let (refusal, place) = refusal_words(refusal);
                Translation {
                    refusal,
                    place,
                    ..Translation::default()
                }
            }
        }
    }
}

// What a map or unmap answers C. Refusal 0: granted. `count` and `ranges` are the counts of the table and of the list
// afterwards. On a refusal there is no operation, and the counts are those that came in.
#[repr(C)]
#[derive(Clone, Copy)]
pub struct AnswerWords {
    pub refusal: u64,
    pub place: u64,
    pub operations: u64,
    pub count: u64,
    pub ranges: u64,
}

impl From<Grant> for AnswerWords {
    ghost from_gives = { λ g a. a ≡ answer_of 0 0 (answered g) };

    fn from(grant: Grant) -> AnswerWords {
        AnswerWords {
            refusal: 0,
            place: 0,
            operations: grant.operations as u64,
            count: grant.count as u64,
            ranges: grant.ranges as u64,
        }
    }
}

impl AnswerWords {
    // On a table of `count` mappings and a list of `ranges` ranges.
    fn new(answer: Result<Grant, BatchRefusal>, count: u64, ranges: u64) -> AnswerWords
        ensures { result ≡ answer_of count ranges (batch_reply answer) }
    {
        match answer {
            Ok(grant) => AnswerWords::from(grant),
            Err(refused) => AnswerWords {
                refusal: u64::from(rules::refusal_number(refused.refusal)),
                place: refused.place as u64,
                operations: 0,
                count,
                ranges,
            },
        }
    }
}

// The first refusal of a request record in a space, among 12, 13, 14, 1, 6, 7, 8, 9 and 10.
fn check_request(record: &[u8], space: Space) -> Result<(), Refusal>
    ensures { reply_of result ≡ verdict (check_rows «record».now space) }
{
    let request = record::decode(record, rules::SPARSE)?;
    if !rules::space_keeps_rules(space) {
        return Err(Refusal::BadSpace);
    }
    rules::request_verdict(space, request)
}

// The same by its number, or 0 where nothing refuses it.
#[tactic(auto, unfolding(model::specs::Calls::check_request))]
#[unsafe(no_mangle)]
pub extern "C" fn waylluqen_check_request(
    record: &[u8],
    start: u64,
    size: u64,
    reserved_start: u64,
    reserved_size: u64,
) -> u32
    ensures { result ≡ check_request «record».now (space_of start size reserved_start reserved_size) }
{
    let space = Space::from(SpaceWords {
        start,
        size,
        reserved_start,
        reserved_size,
    });
    check_request(record, space)
        .err()
        .map_or(0, rules::refusal_number)
}

// What a byte address shows in a table of `count` mappings, beside a list of sparse ranges, and for how many bytes, or the
// first of the refusals 1, 2, 4, 5, 17 and 18.
#[unsafe(no_mangle)]
pub extern "C" fn waylluqen_lookup(
    space: SpaceWords,
    ranges: &[u64],
    range_count: u64,
    table: &[u64],
    count: u64,
    address: u64,
) -> Translation
    ensures { result ≡ translation_of (lookup (space_of space.start space.size space.reserved_start space.reserved_size) (lent_words ranges.now range_count table.now count) address) }
{
    Translation::from(bind::lookup(
        Space::from(space),
        ranges,
        range_count as usize,
        table,
        count as usize,
        address,
    ))
}

// Maps or unmaps a range in a table of `count` mappings, by the request's numbers: the first of the refusals 13, 1 to 5, 17,
// 18, 6 to 11, and then no word changes; or a grant.
#[unsafe(no_mangle)]
pub extern "C" fn waylluqen_bind(
    space: SpaceWords,
    ranges: &[u64],
    range_count: u64,
    table: &mut [u64],
    count: u64,
    operations: &mut [u64],
    request: Numbers,
) -> AnswerWords
    ensures { left count range_count (bind (space_of space.start space.size space.reserved_start space.reserved_size) (lent_words ranges.now range_count table.old count) operations.old (numbers_of request)) ≡ record { answer = result; table = table.new; ranges = ranges.now; operations = operations.new } }
{
    let answer = bind::bind(
        Space::from(space),
        ranges,
        range_count as usize,
        table,
        count as usize,
        operations,
        request,
    );
    AnswerWords::new(answer.map_err(BatchRefusal::from), count, range_count)
}

// The same by the bytes of a record, which may have the sparse flag and then changes the list alone: the refusals 12, 13,
// 14, 1 to 5, 17, 18, 6 to 10, 19, 20, 11.
#[unsafe(no_mangle)]
pub extern "C" fn waylluqen_bind_record(
    space: SpaceWords,
    ranges: &mut [u64],
    range_count: u64,
    table: &mut [u64],
    count: u64,
    operations: &mut [u64],
    record: &[u8],
) -> AnswerWords
    ensures { left count range_count (bind (space_of space.start space.size space.reserved_start space.reserved_size) (lent_words ranges.old range_count table.old count) operations.old (bytes «record».now)) ≡ record { answer = result; table = table.new; ranges = ranges.new; operations = operations.new } }
{
    let answer = bind::bind_record(
        Space::from(space),
        ranges,
        range_count as usize,
        table,
        count as usize,
        operations,
        record,
    );
    AnswerWords::new(answer.map_err(BatchRefusal::from), count, range_count)
}

// Maps and unmaps, by 0 to 64 records in a row, all or none: the batch's own refusals 12, 1, 2, 3, 15, 4, 5, 17, 18, and then
// no word changes; a request's in its turn, 13, 14, 6 to 11, 16, with its place, and then the table is as before and every
// other word that is lent for writing is zero; or a grant.
#[unsafe(no_mangle)]
pub extern "C" fn waylluqen_bind_batch(
    space: SpaceWords,
    ranges: &[u64],
    range_count: u64,
    table: &mut [u64],
    count: u64,
    work: &mut [u64],
    operations: &mut [u64],
    records: &[u8],
) -> AnswerWords
    ensures { batch_left count range_count (bind_batch (space_of space.start space.size space.reserved_start space.reserved_size) (lent_words ranges.now range_count table.old count) work.old operations.old records.now) ≡ record { answer = result; table = table.new; work = work.new; operations = operations.new } }
{
    let answer = batch::bind_batch(
        Space::from(space),
        ranges,
        range_count as usize,
        table,
        count as usize,
        work,
        operations,
        records,
    );
    AnswerWords::new(answer, count, range_count)
}

// A mapping, as C hands it over. It is no model::Mapping: repr(C) promises a layout, and model, which has only what must be
// believed, promises none.
#[repr(C)]
#[derive(Clone, Copy)]
pub struct MappingWords {
    pub address: u64,
    pub size: u64,
    pub object: u64,
    pub offset: u64,
}

impl From<MappingWords> for Mapping {
    ghost from_gives = { λ w m. m ≡ mapping_in w };

    fn from(words: MappingWords) -> Mapping {
        Mapping {
            address: words.address,
            size: words.size,
            object: words.object,
            offset: words.offset,
        }
    }
}

// What a listing of page entries answers C. Refusal 0: so many entries are written.
#[repr(C)]
#[derive(Clone, Copy, Default)]
pub struct PagesWords {
    pub refusal: u64,
    pub place: u64,
    pub entries: u64,
}

impl From<Result<usize, Refusal>> for PagesWords {
    ghost from_gives = { λ a p. p ≡ pages_of (reply_of a) };

    fn from(answer: Result<usize, Refusal>) -> PagesWords {
        match answer {
            Ok(entries) => PagesWords {
                entries: entries as u64,
                ..PagesWords::default()
            },
            Err(refusal) => {
                let (refusal, place) = refusal_words(refusal);
                PagesWords {
                    refusal,
                    place,
                    ..PagesWords::default()
                }
            }
        }
    }
}

// Lists the page entries of one mapping in 4 KiB, 2 MiB and 1 GiB, three words each, as few as can be: how many; or the
// refusal 5 or 16, and then no word changes.
#[unsafe(no_mangle)]
pub extern "C" fn waylluqen_page_entries(mapping: MappingWords, entries: &mut [u64]) -> PagesWords
    ensures { pages_left (page_entries (mapping_in mapping) entries.old) ≡ record { answer = result; words = entries.new } }
{
    PagesWords::from(entries::page_entries(Mapping::from(mapping), entries))
}

// The interface's number is in the name: header and ffi.rs need this very symbol, so that they link with no other edition of
// the calls above. CONTRIBUTING.md says when it goes up.
#[unsafe(no_mangle)]
pub extern "C" fn waylluqen_interface_6() -> u32
    ensures { result ≡ 6 }
{
    6
}
