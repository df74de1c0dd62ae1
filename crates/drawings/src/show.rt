// Shows rows and words in the notation of document 01: mappings in pages, operations by kind and keep.
ghost use Rattle.std.specs.Prelude.{◌≡◌, take};

use crate::rows::PAGE;
use model::{Mapping, Operation, Rests};
use std::fmt;

// What it wraps, in that notation.
#[derive(Clone, Copy)]
pub(crate) struct Drawn<T>(pub T);

impl fmt::Display for Drawn<Mapping> {
    fn fmt<W: fmt::Write>(&self, f: &mut fmt::Formatter<W>) -> fmt::Result {
        let m = self.0;
        let first = m.address / PAGE;
        // The end of wrong words may wrap.
        let end = m.address.wrapping_add(m.size) / PAGE;
        write!(f, "[{first},{end}) {}@{}", m.object, m.offset / PAGE)
    }
}

impl fmt::Display for Drawn<Rests> {
    fn fmt<W: fmt::Write>(&self, f: &mut fmt::Formatter<W>) -> fmt::Result {
        match self.0 {
            Rests::Lower(lower) => write!(f, "lower {}", Drawn(lower)),
            Rests::Upper(upper) => write!(f, "upper {}", Drawn(upper)),
            Rests::Both(lower, upper) => {
                write!(f, "lower {}, upper {}", Drawn(lower), Drawn(upper))
            }
        }
    }
}

// The mapping that an operation names is the old one or the request's, which stand beside it.
impl fmt::Display for Drawn<Operation> {
    fn fmt<W: fmt::Write>(&self, f: &mut fmt::Formatter<W>) -> fmt::Result {
        match self.0 {
            Operation::Map(_) => write!(f, "map"),
            Operation::Remap(keep, _, rests) => {
                write!(f, "remap keep {}, {}", u8::from(keep), Drawn(rests))
            }
            Operation::Unmap(keep, _) => write!(f, "unmap keep {}", u8::from(keep)),
        }
    }
}

// The words of a mapping.
impl fmt::Display for Drawn<[u64; 4]> {
    fn fmt<W: fmt::Write>(&self, f: &mut fmt::Formatter<W>) -> fmt::Result {
        let [address, size, object, offset] = self.0;
        let mapping = Mapping {
            address,
            size,
            object,
            offset,
        };
        write!(f, "{}", Drawn(mapping))
    }
}

// The words of an operation; those of none as they are.
impl fmt::Display for Drawn<[u64; 14]> {
    fn fmt<W: fmt::Write>(&self, f: &mut fmt::Formatter<W>) -> fmt::Result {
        match cut::read_operation(&self.0) {
            Some(operation) => write!(f, "{}", Drawn(operation)),
            None => write!(f, "{:?}", self.0),
        }
    }
}

impl<T: Copy> fmt::Display for Drawn<&[T]>
where
    Drawn<T>: fmt::Display,
{
    fn fmt<W: fmt::Write>(&self, f: &mut fmt::Formatter<W>) -> fmt::Result {
        let [first, others @ ..] = self.0 else {
            return write!(f, "none");
        };
        write!(f, "{}", Drawn(*first))?;
        for item in others {
            write!(f, ", {}", Drawn(*item))?;
        }
        Ok(())
    }
}

// The first items of a run, or all where it has fewer.
pub(crate) fn first<T>(items: &[T], count: usize) -> &[T]
    ensures { result.now ≡ take count items.now }
{
    items.get(..count).unwrap_or(items)
}
