// What must be believed, and nothing else: the declared types here, the definitions and the claims in specs/.
// There is no function. Proofs of the claims are in proofs/.
#![tactic(auto)]

// A range of addresses: [start, start + size). A reservation is one, and a sparse range.
#[derive(Clone, Copy, PartialEq, Eq)]
pub struct Range {
    pub start: u64,
    pub size: u64,
}

// A GPU address space (document 01: Space). A reservation of size 0 is none, and no Option: `space_tests` (specs/Rules)
// refuses one of size 0 that starts elsewhere than at 0.
#[derive(Clone, Copy)]
pub struct Space {
    pub start: u64,
    pub size: u64,
    pub reserved: Range,
}

// A mapping (document 01: Mapping): [address, address + size) shows the object from the offset on.
#[derive(Clone, Copy, PartialEq, Eq, Default)]
pub struct Mapping {
    pub address: u64,
    pub size: u64,
    pub object: u64,
    pub offset: u64,
}

// A request, with the seven fields of the record (document 01: Request record), which calls object, address, offset
// and size handle, addr, bo_offset and range. A request by numbers has flags and pad 0. `op`, `flags` and `pad` are numbers
// and no enums: `form_rows`, `object_row` and `offset_row` (specs/Rules) answer for every one.
#[derive(Clone, Copy)]
pub struct Request {
    pub op: u64,
    pub flags: u64,
    pub object: u64,
    pub pad: u64,
    pub address: u64,
    pub offset: u64,
    pub size: u64,
}

// The refusals of document 01's table, in the order of their numbers 1 to 14, and document 02's 15 to 20. A bad mapping
// has its place.
#[derive(Clone, Copy)]
pub enum Refusal {
    BadSpace,
    BadTableLength,
    ShortOperations,
    BadCount,
    BadMapping(usize),
    Unaligned,
    OutsideSpace,
    Reserved,
    BadObject,
    BadOffset,
    NoRoom,
    BadRecordLength,
    BadOp,
    BadFlags,
    BadWorkLength,
    ShortOutput,
    StaleWords,
    BadRanges,
    RangeOverlaps,
    NoSuchRange,
}

// What a remap leaves of the old mapping: a lower rest, an upper rest, or both.
#[derive(Clone, Copy)]
pub enum Rests {
    Lower(Mapping),
    Upper(Mapping),
    Both(Mapping, Mapping),
}

// One operation for the driver. The bool is the keep mark; a remap and an unmap name the old mapping, a map the new one.
#[derive(Clone, Copy)]
pub enum Operation {
    Map(Mapping),
    Remap(bool, Mapping, Rests),
    Unmap(bool, Mapping),
}

// What a byte address shows: nothing; a sparse range and no mapping; or an object's byte at an offset.
#[derive(Clone, Copy)]
pub enum Shown {
    Nothing,
    Sparse,
    Object(u64, u64),
}

// What a look-up sees at a byte address: what it shows, and for how many bytes from there on the answer goes on in the
// same way.
#[derive(Clone, Copy)]
pub struct Seen {
    pub shown: Shown,
    pub bytes: u64,
}

// What a granted request answers: the number of operations, and the counts of the table and of the list of sparse ranges
// afterwards.
#[derive(Clone, Copy)]
pub struct Grant {
    pub operations: usize,
    pub count: usize,
    pub ranges: usize,
}
