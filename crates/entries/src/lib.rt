// The page entries of one mapping (document 02, Item 12): counted without making them, then written.
#![tactic(auto)]

ghost use Rattle.std.specs.Prelude.{◌≡◌, ◌&&◌, ◌+◌, ◌-◌, ◌*◌, ◌/◌, ◌%◌, ◌^◌, ◌≤◌, leb, length, MatchOption};
ghost use Rattle.model.specs.Rules.{limit, end};
ghost use Rattle.model.specs.Calls.{reply_of};
ghost use Rattle.pages.specs.Pages.{down, up, first_cut, last_cut, part, congruent, paged};
ghost use Rattle.pages.specs.Pages.{page_entries};
ghost use Rattle.entries.specs.Sizes.{bytes_of, size_below, largest_in, cover_to, whole_pages, count_to, Listable, Within, Pieces, Wrote};

use model::{Mapping, Range, Refusal, Space};

// A size of pages: 4 KiB, 2 MiB or 1 GiB.
#[derive(Clone, Copy)]
enum PageSize {
    Page4K,
    Page2M,
    Page1G,
}

impl PageSize {
    // The size of the largest pages that so many bytes can have.
    fn largest_in(bytes: u64) -> PageSize
        ensures { result ≡ largest_in bytes }
    {
        if bytes < PageSize::Page2M.bytes() {
            PageSize::Page4K
        } else if bytes < PageSize::Page1G.bytes() {
            PageSize::Page2M
        } else {
            PageSize::Page1G
        }
    }

    // The next smaller size.
    fn below(self) -> Option<PageSize>
        ensures { result ≡ size_below self }
    {
        match self {
            PageSize::Page4K => None,
            PageSize::Page2M => Some(PageSize::Page4K),
            PageSize::Page1G => Some(PageSize::Page2M),
        }
    }

    fn bytes(self) -> u64
        ensures { result ≡ bytes_of self }
    {
        match self {
            PageSize::Page4K => 4 << 10,
            PageSize::Page2M => 2 << 20,
            PageSize::Page1G => 1 << 30,
        }
    }

    // How many bits of an address lie inside a page: what is divided by the size is shifted by them.
    #[tactic(auto, using(crate::proofs::Sizes::size_bits))]
    fn bits(self) -> u32
        ensures few { result ≤ 30 }
        ensures power { 2 ^ result ≡ bytes_of self }
    {
        self.bytes().trailing_zeros()
    }

    // How many pages so many bytes are.
    fn pages_in(self, bytes: u64) -> u64
        ensures { result ≡ bytes / bytes_of self }
    {
        bytes >> self.bits()
    }

    // How many bytes x lies behind the boundary at or before it.
    fn inside(self, x: u64) -> u64
        ensures { result ≡ x % bytes_of self }
    {
        x & (self.bytes() - 1)
    }

    // The boundary at or before x.
    fn down(self, x: u64) -> u64
        ensures { result ≡ down (bytes_of self) x }
    {
        x - self.inside(x)
    }

    // The boundary at or behind x.
    fn up(self, x: u64) -> u64
        requires { x ≤ limit }
        ensures { result ≡ up (bytes_of self) x }
    {
        self.down(x + (self.bytes() - 1))
    }
}

// A mapping, or a part of one, in whole pages of 4 KiB. No sum in it wraps.
#[derive(Clone, Copy)]
struct Part {
    mapping: Mapping,
    ghost listable: { Listable mapping },
}

// The parts that two cuts make.
#[derive(Clone, Copy)]
struct Cut {
    lower: Part,
    middle: Part,
    upper: Part,
}

impl Part {
    fn end(&self) -> u64
        ensures { result ≡ end self.now.mapping }
    {
        self.mapping.address + self.mapping.size
    }

    // Where it is cut: at its first boundary and at its last, or at its end.
    fn first_cut(&self, size: PageSize) -> u64
        ensures { result ≡ first_cut (bytes_of size) self.now.mapping }
    {
        size.up(self.mapping.address).min(self.end())
    }

    fn last_cut(&self, size: PageSize) -> u64
        ensures { result ≡ last_cut (bytes_of size) self.now.mapping }
    {
        self.first_cut(size).max(size.down(self.end()))
    }

    // What lies between two addresses of it.
    fn between(&self, from: u64, to: u64) -> Part
        requires { Within self.now.mapping from to }
        ensures { result.mapping ≡ part from to self.now.mapping }
    {
        let m = self.mapping;
        Part {
            mapping: Mapping {
                address: from,
                size: to - from,
                object: m.object,
                offset: m.offset + (from - m.address),
            },
        }
    }

    // It may have a page of this size: it is no smaller, and address and offset differ by a multiple of the size.
    fn may_have(&self, size: PageSize) -> bool
        ensures { result ≡ (leb (bytes_of size) self.now.mapping.size && congruent (bytes_of size) self.now.mapping) }
    {
        let m = self.mapping;
        size.bytes() <= m.size && size.inside(m.address) == size.inside(m.offset)
    }

    // How many whole pages of this size it has.
    #[tactic(auto, using(crate::proofs::Counts::whole_some, crate::proofs::Counts::whole_none))]
    fn whole_pages(&self, size: PageSize) -> u64
        ensures { result ≡ whole_pages size self.now.mapping }
    {
        if !self.may_have(size) {
            return 0;
        }
        size.pages_in(self.last_cut(size) - self.first_cut(size))
    }

    // The whole pages between the cuts and the remainders on both sides, which are for the size below; or none, where all of
    // it is for the size below.
    #[tactic(auto, using(crate::proofs::Counts::cover_below))]
    fn cut(&self, size: PageSize, below: PageSize) -> Option<Cut>
        requires { size_below size ≡ Some below }
        ensures { MatchOption result (cover_to below self.now.mapping ≡ cover_to size self.now.mapping) (λ c. Pieces size below self.now.mapping c.lower.mapping c.middle.mapping c.upper.mapping) }
    {
        if !self.may_have(size) {
            return None;
        }
        let first = self.first_cut(size);
        let last = self.last_cut(size);
        Some(Cut {
            lower: self.between(self.mapping.address, first),
            middle: self.between(first, last),
            upper: self.between(last, self.end()),
        })
    }

    // How many entries it has: as many as pages of 4 KiB, but one for each 512 of them in a page of 2 MiB, and one for
    // each 512 of these in a page of 1 GiB.
    #[tactic(auto, using(crate::proofs::Counts::count_whole, crate::proofs::Counts::count_most))]
    fn entry_count(&self) -> u64
        ensures { result ≡ count_to PageSize.Page1G self.now.mapping }
    {
        let large = self.whole_pages(PageSize::Page2M) + self.whole_pages(PageSize::Page1G);
        PageSize::Page4K.pages_in(self.mapping.size) - 511 * large
    }

    // Writes it in pages of this size alone, from the front of `out` on, and answers how many words these are.
    fn write_pages(&self, size: PageSize, out: &mut [u64]) -> usize
        requires { 3 * length (paged (bytes_of size) self.now.mapping) ≤ length out.old }
        ensures { Wrote out.old out.new 0 result (paged (bytes_of size) self.now.mapping) }
    {
        let m = self.mapping;
        let bytes = size.bytes();
        let count = size.pages_in(m.size) as usize;
        // By place: tried over chunks_exact_mut, after which a proof knows the slice's length alone.
        for i in 0..count {
            let behind = i as u64 * bytes;
            out[3 * i] = m.address + behind;
            out[3 * i + 1] = m.offset + behind;
            out[3 * i + 2] = bytes;
        }
        3 * count
    }

    // Writes its entries in pages of this size and of those below it, from the front of `out` on, and answers how many
    // words these are.
    #[tactic(auto, using(crate::proofs::Counts::cover_least))]
    fn write(&self, size: PageSize, out: &mut [u64]) -> usize
        requires { 3 * length (cover_to size self.now.mapping) ≤ length out.old }
        ensures { Wrote out.old out.new 0 result (cover_to size self.now.mapping) }
    {
        let Some(below) = size.below() else {
            return self.write_pages(size, out);
        };
        let Some(cut) = self.cut(size, below) else {
            return self.write(below, out);
        };
        let mut words = cut.lower.write(below, out);
        words += cut.middle.write_pages(size, &mut out[words..]);
        words += cut.upper.write(below, &mut out[words..]);
        words
    }
}

// From 0 to 2^48, nothing reserved.
const WHOLE_SPACE: Space = Space {
    start: 0,
    size: rules::LIMIT,
    reserved: Range { start: 0, size: 0 },
};

// Lists the page entries of a mapping, three words each, as few as can be: how many; or 5 for a mapping that breaks its own
// rules, 16 for a slice too short for the whole list, and then no word changes.
#[tactic(auto, using(crate::proofs::Listing::broken, crate::proofs::Listing::too_short, crate::proofs::Listing::count_fits, crate::proofs::Listing::length_listed))]
pub fn page_entries(m: Mapping, out: &mut [u64]) -> Result<usize, Refusal>
    ensures { page_entries m out.old ≡ record { answer = reply_of result; words = out.new } }
{
    if !rules::mapping_fits(WHOLE_SPACE, 0, m) {
        return Err(Refusal::BadMapping(0));
    }
    let whole = Part { mapping: m };
    let count = whole.entry_count();
    if (out.len() as u64) < 3 * count {
        return Err(Refusal::ShortOutput);
    }
    whole.write(PageSize::largest_in(m.size), out);
    Ok(count as usize)
}
