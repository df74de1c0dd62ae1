// What a request makes of the mappings that it hits: the operation of each, its fourteen words, written and read, and the
// operations of a request.
#![tactic(auto)]

ghost use Rattle.std.specs.Prelude.{◌≡◌, ◌∷◌, ◌++◌, ◌+◌, ◌-◌, ◌*◌, ◌^◌, ◌≤◌, ◌<◌, leb, length};
ghost use Rattle.std.specs.Option.{option_to_list};
ghost use mathlib.Core.List.{flat_map};
ghost use Rattle.model.specs.Rows.{all, choose};
ghost use Rattle.model.specs.Rules.{limit, stop};
ghost use Rattle.model.specs.Cut.{lower_part, upper_part, mapping_of, new, displacement, agree_tests, keep_mark, operation_of};
ghost use Rattle.model.specs.Table.{mapping_from, words_of};
ghost use Rattle.model.specs.Layout.{words_of_operation, operation_by, operation_in};
ghost use Rattle.words.specs.Words.{stored};
ghost use Rattle.table.specs.Places.{between};
ghost use Rattle.cut.specs.Operations.{Cuttable, Bounded, some_left, rest_in, rests_for, hit_operations, operations_for, Hits};

use model::{Mapping, Operation, Request, Rests};

// The words of an operation, and its kinds, as the layout numbers them.
pub const OPERATION_WORDS: usize = 14;

const MAP: u64 = 0;

const REMAP: u64 = 1;

const UNMAP: u64 = 2;

// An absent rest. Tried as `Mapping::default()`, after which each case of `write_operation` asked for an answer more.
const ABSENT: Mapping = Mapping {
    address: 0,
    size: 0,
    object: 0,
    offset: 0,
};

// Row 3: so many words have room for one operation more than a table has mappings at most.
#[tactic(auto, using(std::proofs::lemmas::Bool::Decides::nat_tests))]
pub fn operations_fit(words: usize, capacity: usize) -> bool
    ensures { result ≡ leb ((capacity + 1) * 14) words }
{
    capacity < words / OPERATION_WORDS
}

// The mapping that a map asks for. Both types are another crate's, so this is no `From`.
pub fn new_mapping(r: Request) -> Mapping
    ensures { result ≡ mapping_of r }
{
    Mapping {
        address: r.address,
        size: r.size,
        object: r.object,
        offset: r.offset,
    }
}

// The new mapping of a request: a map, whose op is 0 in the record, has one, which it asks for.
pub fn new(r: Request) -> Option<Mapping>
    ensures { option_to_list result ≡ new r }
{
    (r.op == 0).then_some(new_mapping(r))
}

// Document 02: displacement, the offset less the address, which may be below zero.
fn displacement(m: Mapping) -> i64
    requires { Bounded m }
    ensures { result ≡ displacement m }
{
    m.offset as i64 - m.address as i64
}

// The same object and displacement.
fn agree(m: Mapping, n: Mapping) -> bool
    requires { Bounded m × Bounded n }
    ensures { result ≡ all (agree_tests m n) }
{
    (m.object == n.object) & (displacement(m) == displacement(n))
}

// The last byte of the requested range.
pub fn last_byte(r: Request) -> u64
    requires { (0 < r.size) × (stop r ≤ limit) }
    ensures { result ≡ stop r - 1 }
{
    r.address + (r.size - 1)
}

// A part of a mapping, unless nothing is left.
pub fn some_left(part: Mapping) -> Option<Mapping>
    ensures { result ≡ some_left part }
{
    (part.size != 0).then_some(part)
}

// The rests of a mapping, if there are any.
fn rests(lower: Option<Mapping>, upper: Option<Mapping>) -> Option<Rests>
    ensures { result ≡ rests_for lower upper }
{
    match (lower, upper) {
        (None, None) => None,
        (Some(l), None) => Some(Rests::Lower(l)),
        (None, Some(u)) => Some(Rests::Upper(u)),
        (Some(l), Some(u)) => Some(Rests::Both(l, u)),
    }
}

// A mapping that a request hits.
#[derive(Clone, Copy)]
pub struct Hit {
    pub request: Request,
    pub mapping: Mapping,
    ghost cuttable: { Cuttable request mapping },
}

impl Hit {
    // Document 02: keep.
    fn keep_mark(self) -> bool
        requires { self.request.offset ≤ limit }
        ensures { result ≡ keep_mark self.request self.mapping }
    {
        new(self.request).is_some_and(|asked| agree(self.mapping, asked))
    }

    // What is left below the range: the mapping ends behind the range's first byte. Where nothing is left, the size is 0: no
    // Option, since the clause says the whole part, as the model's `lower_part` does, and `upper_part` below.
    pub fn lower_part(self) -> Mapping
        ensures { result ≡ lower_part self.request.address self.mapping }
    {
        Mapping {
            size: self.request.address.saturating_sub(self.mapping.address),
            ..self.mapping
        }
    }

    // What is left above the range, before whose end the mapping starts: its offset moves up by the same distance as its
    // address.
    pub fn upper_part(self) -> Mapping
        ensures { result ≡ upper_part (stop self.request) self.mapping }
    {
        let m = self.mapping;
        let from = last_byte(self.request) + 1;
        Mapping {
            address: from,
            size: (m.address + m.size).saturating_sub(from),
            object: m.object,
            offset: m.offset + (from - m.address),
        }
    }

    // The operation: what is left decides.
    fn operation(self) -> Operation
        requires { self.request.offset ≤ limit }
        ensures { result ≡ operation_of self.request self.mapping }
    {
        let keep = self.keep_mark();
        match rests(some_left(self.lower_part()), some_left(self.upper_part())) {
            None => Operation::Unmap(keep, self.mapping),
            Some(rests) => Operation::Remap(keep, self.mapping, rests),
        }
    }
}

// Writes the words of an operation from word `at` on: kind, keep, the old mapping (a map's new one), the lower rest, the upper
// rest.
fn write_parts(
    operations: &mut [u64],
    at: usize,
    kind: u64,
    keep: bool,
    old: Mapping,
    lower: Mapping,
    upper: Mapping,
)
    requires { at + 14 ≤ length operations.old }
    ensures { operations.new ≡ stored operations.old at (kind ∷ choose keep 1 0 ∷ (words_of old ++ (words_of lower ++ words_of upper))) }
{
    let words = [
        kind,
        u64::from(keep),
        old.address,
        old.size,
        old.object,
        old.offset,
        lower.address,
        lower.size,
        lower.object,
        lower.offset,
        upper.address,
        upper.size,
        upper.object,
        upper.offset,
    ];
    words::store(operations, at, &words)
}

// Writes an operation's words from word `at` on, each case by itself: joined in one array first, they took 14 instructions more
// for each mapping hit.
fn write_operation(operations: &mut [u64], at: usize, operation: Operation)
    requires { at + 14 ≤ length operations.old }
    ensures { operations.new ≡ stored operations.old at (words_of_operation operation) }
{
    match operation {
        Operation::Map(m) => write_parts(operations, at, MAP, false, m, ABSENT, ABSENT),
        Operation::Remap(keep, m, rests) => match rests {
            Rests::Lower(l) => write_parts(operations, at, REMAP, keep, m, l, ABSENT),
            Rests::Upper(u) => write_parts(operations, at, REMAP, keep, m, ABSENT, u),
            Rests::Both(l, u) => write_parts(operations, at, REMAP, keep, m, l, u),
        },
        Operation::Unmap(keep, m) => write_parts(operations, at, UNMAP, keep, m, ABSENT, ABSENT),
    }
}

// The rest in the four words from word `at` on; four zeros are none.
fn rest_from(words: &[u64], at: usize) -> Option<Mapping>
    requires { at + 4 ≤ length words.now }
    ensures { result ≡ rest_in (mapping_from at words.now) }
{
    let rest = table::mapping_from(words, at);
    (rest != Mapping::default()).then_some(rest)
}

// By the kind: a map and an unmap have no rests, a remap has some; another kind is no operation.
fn operation_by(kind: u64, keep: bool, mapping: Mapping, rests: Option<Rests>) -> Option<Operation>
    ensures { result ≡ operation_by kind keep mapping rests }
{
    match (kind, rests) {
        (MAP, None) => Some(Operation::Map(mapping)),
        (REMAP, Some(rests)) => Some(Operation::Remap(keep, mapping, rests)),
        (UNMAP, None) => Some(Operation::Unmap(keep, mapping)),
        _ => None,
    }
}

// The operation that the first fourteen words say.
pub fn read_operation(words: &[u64]) -> Option<Operation>
    requires { 14 ≤ length words.now }
    ensures { result ≡ operation_in words.now }
{
    let rests = rests(rest_from(words, 6), rest_from(words, 10));
    operation_by(
        words[0],
        words[1] == 1,
        table::mapping_from(words, 2),
        rests,
    )
}

// A request, and the mappings that it hits: those of a table from place `lo` up to `hi`.
#[derive(Clone, Copy)]
pub struct Cut {
    pub request: Request,
    pub lo: usize,
    pub hi: usize,
}

impl Cut {
    // How many operations it has: those of the mappings hit, and a map's own.
    pub fn operations_number(self) -> usize
        requires { (self.lo ≤ self.hi) × (self.hi < 2 ^ 63) }
        ensures { result ≡ self.hi - self.lo + length (new self.request) }
    {
        self.hi - self.lo + usize::from(new(self.request).is_some())
    }

    // Writes the operations of the mappings hit, from the first word on.
    fn write_hits(self, t: &[u64], operations: &mut [u64])
        requires { Hits self.request t.now self.lo self.hi (length operations.old) }
        ensures { operations.new ≡ stored operations.old 0 (flat_map words_of_operation (hit_operations self.request (between t.now self.lo self.hi))) }
    {
        // By place, as in entries: after chunks_exact_mut a proof knows the slice's length alone.
        for i in self.lo..self.hi {
            let hit = Hit {
                request: self.request,
                mapping: table::read_mapping(t, i),
            };
            write_operation(operations, OPERATION_WORDS * (i - self.lo), hit.operation());
        }
    }

    // Writes all its operations, from the first word on, a map's own behind the others.
    pub fn write_operations(self, t: &[u64], operations: &mut [u64])
        requires { Hits self.request t.now self.lo self.hi (length operations.old) }
        ensures { operations.new ≡ stored operations.old 0 (flat_map words_of_operation (operations_for self.request (between t.now self.lo self.hi))) }
    {
        self.write_hits(t, operations);
        if let Some(m) = new(self.request) {
            let own = OPERATION_WORDS * (self.hi - self.lo);
            write_operation(operations, own, Operation::Map(m));
        }
    }
}
