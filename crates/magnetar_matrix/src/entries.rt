// The entries of a matrix, or of several that lie one behind the other, in whichever form they are lent: as four parallel number slices or as
// one slice of records.
ghost use Rattle.std.specs.Prelude.{◌≡◌, ◌-◌, length, min, take, drop, slice_index, Bool, true, false, is_some, IfSome};
ghost use Rattle.magnetar_field.specs.Gf128.{value};
ghost use Rattle.magnetar_matrix.specs.Numbers.{Numbers, entry_of, entries_by, counts, slice_numbers, record_numbers, exchanged, part};

use magnetar_field::gf128::Gf128;

// An entry of a matrix: its place, and the low and high word of its value.
#[derive(Clone, Copy, Debug, PartialEq, Eq)]
pub struct Entry {
    pub row: usize,
    pub col: usize,
    pub lo: u64,
    pub hi: u64,
}

// What is read where there is none.
const NO_ENTRY: Entry = Entry {
    row: 0,
    col: 0,
    lo: 0,
    hi: 0,
};

impl Entry {
    // Its value.
    #[inline]
    pub fn value(self) -> Gf128
        ensures { value result ≡ (entry_of self).value }
    {
        Gf128 {
            lo: self.lo,
            hi: self.hi,
        }
    }
}

// Entries that are read off four lists of numbers.
pub trait Entries {
    ghost numbers: { Self → Numbers };

    // The four lists lie in memory as slices.
    ghost in_slices: { Self → Bool };

    // How many entries there are.
    fn len(&self) -> usize
        ensures { result ≡ length (entries_by (numbers self.now)) };

    // Entry i; a number that is not there is 0.
    fn at(&self, i: usize) -> Entry
        ensures row { result.row ≡ slice_index (numbers self.now).row i }
        ensures col { result.col ≡ slice_index (numbers self.now).col i }
        ensures lo { result.lo ≡ slice_index (numbers self.now).lo i }
        ensures hi { result.hi ≡ slice_index (numbers self.now).hi i };

    // How many numbers each list has.
    fn counts(&self) -> [usize; 4]
        ensures { result ≡ counts (numbers self.now) };

    // The four lists as slices, where they lie in memory as such. A walk over these is faster: it need not look them up for each entry.
    fn as_slices(&self) -> Option<Slices<'_>>
        ensures there { is_some result ≡ in_slices self.now }
        ensures same { IfSome result (λ s. slice_numbers s ≡ numbers self.now) };
}

// Entries as four parallel slices.
#[derive(Clone, Copy)]
pub struct Slices<'a> {
    pub row: &'a [usize],
    pub col: &'a [usize],
    pub lo: &'a [u64],
    pub hi: &'a [u64],
}

#[tactic(auto, using(crate::proofs::EntryLists::lengths))]
impl Entries for Slices<'_> {
    ghost numbers = { slice_numbers };

    ghost in_slices = { λ _. true };

    #[inline]
    fn len(&self) -> usize {
        let places = self.row.len().min(self.col.len());
        let values = self.lo.len().min(self.hi.len());
        places.min(values)
    }

    #[inline]
    fn at(&self, i: usize) -> Entry {
        if i < self.len() {
            Entry {
                row: self.row[i],
                col: self.col[i],
                lo: self.lo[i],
                hi: self.hi[i],
            }
        } else {
            self.past(i)
        }
    }

    fn counts(&self) -> [usize; 4] {
        [self.row.len(), self.col.len(), self.lo.len(), self.hi.len()]
    }

    #[inline]
    fn as_slices(&self) -> Option<Slices<'_>> {
        Some(*self)
    }
}

impl Slices<'_> {
    // The numbers at index i, where not every slice has one.
    fn past(&self, i: usize) -> Entry
        ensures row { result.row ≡ slice_index self.now.row.now i }
        ensures col { result.col ≡ slice_index self.now.col.now i }
        ensures lo { result.lo ≡ slice_index self.now.lo.now i }
        ensures hi { result.hi ≡ slice_index self.now.hi.now i }
    {
        Entry {
            row: self.row.get(i).copied().unwrap_or(0),
            col: self.col.get(i).copied().unwrap_or(0),
            lo: self.lo.get(i).copied().unwrap_or(0),
            hi: self.hi.get(i).copied().unwrap_or(0),
        }
    }

    // Those from one place to another, of each slice as many as there are.
    #[inline]
    fn part(self, from: usize, to: usize) -> Self
        ensures { slice_numbers result ≡ part from to (slice_numbers self.entry) }
    {
        Slices {
            row: cut(self.row, from, to),
            col: cut(self.col, from, to),
            lo: cut(self.lo, from, to),
            hi: cut(self.hi, from, to),
        }
    }
}

// Those from one place to another, as many as there are.
#[inline]
fn cut<'a, T>(s: &'a [T], from: usize, to: usize) -> &'a [T]
    ensures { result.now ≡ take (to - from) (drop from s.now) }
{
    let end = to.min(s.len());
    &s[from.min(end)..end]
}

// Entries as one slice of records.
#[derive(Clone, Copy)]
pub struct Records<'a> {
    pub entries: &'a [Entry],
}

#[tactic(auto, using(crate::proofs::EntryLists::lengths))]
impl Entries for Records<'_> {
    ghost numbers = { λ s. record_numbers s.entries.now };

    ghost in_slices = { λ _. false };

    #[inline]
    fn len(&self) -> usize {
        self.entries.len()
    }

    #[inline]
    fn at(&self, i: usize) -> Entry {
        self.entries.get(i).copied().unwrap_or(NO_ENTRY)
    }

    fn counts(&self) -> [usize; 4] {
        let n = self.entries.len();
        [n, n, n, n]
    }

    #[inline]
    fn as_slices(&self) -> Option<Slices<'_>> {
        None
    }
}

// Entries with row and column exchanged.
#[derive(Clone, Copy)]
pub struct Exchanged<'a, E> {
    pub entries: &'a E,
}

#[tactic(auto, using(crate::proofs::EntryLists::lengths))]
impl<E: Entries> Entries for Exchanged<'_, E> {
    ghost numbers = { λ s. exchanged (E.numbers s.entries.now) };

    ghost in_slices = { λ s. E.in_slices s.entries.now };

    #[inline]
    fn len(&self) -> usize {
        self.entries.len()
    }

    #[inline]
    fn at(&self, i: usize) -> Entry {
        let e = self.entries.at(i);
        Entry {
            row: e.col,
            col: e.row,
            lo: e.lo,
            hi: e.hi,
        }
    }

    fn counts(&self) -> [usize; 4] {
        let n = self.entries.counts();
        [n[1], n[0], n[2], n[3]]
    }

    #[inline]
    fn as_slices(&self) -> Option<Slices<'_>> {
        let s = self.entries.as_slices()?;
        Some(Slices {
            row: s.col,
            col: s.row,
            lo: s.lo,
            hi: s.hi,
        })
    }
}

// The entries from one place to another, as far as there are any.
#[derive(Clone, Copy)]
pub struct Part<'a, E> {
    pub entries: &'a E,
    pub from: usize,
    pub to: usize,
}

impl<E> Part<'_, E> {
    // How many of n numbers these are.
    #[inline]
    fn held(&self, n: usize) -> usize
        ensures { result ≡ min self.now.to n - self.now.from }
    {
        self.to.min(n).saturating_sub(self.from)
    }
}

#[tactic(auto, using(crate::proofs::EntryLists::lengths))]
impl<E: Entries> Entries for Part<'_, E> {
    ghost numbers = { λ s. part s.from s.to (E.numbers s.entries.now) };

    ghost in_slices = { λ s. E.in_slices s.entries.now };

    #[inline]
    fn len(&self) -> usize {
        self.held(self.entries.len())
    }

    #[inline]
    fn at(&self, i: usize) -> Entry {
        if i < self.to.saturating_sub(self.from) {
            self.entries.at(self.from + i)
        } else {
            NO_ENTRY
        }
    }

    fn counts(&self) -> [usize; 4] {
        let n = self.entries.counts();
        [
            self.held(n[0]),
            self.held(n[1]),
            self.held(n[2]),
            self.held(n[3]),
        ]
    }

    #[inline]
    fn as_slices(&self) -> Option<Slices<'_>> {
        let s = self.entries.as_slices()?;
        Some(s.part(self.from, self.to))
    }
}
