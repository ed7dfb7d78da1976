// Rows of one size, one after the other, in bytes that are lent: nothing is copied, and nothing is out of range.
ghost use Rattle.std.specs.Prelude.{◌≡◌, ◌*◌, ◌==◌, take, drop, slice_index};
ghost use Rattle.rows.specs.Rows.{pair_at, row_at, Reads};

use game::refusal::Refusal;

// How many rows there are, in groups of as many each, and how many bytes a row has.
#[derive(Clone, Copy, PartialEq, Eq, Debug)]
pub struct Grid {
    pub groups: u8,
    pub each: u32,
    pub size: u16,
}

// One row. A byte that lacks in it is read as 0.
#[derive(Clone, Copy)]
pub struct Row<'a> {
    pub bytes: &'a [u8],
}

// The rows of a grid.
#[derive(Clone, Copy)]
pub struct Rows<'a> {
    pub grid: Grid,
    pub bytes: &'a [u8],
}

// The bytes from a place on, so many or as far as there are any.
#[tactic(auto, using(std::proofs::lemmas::List::take_min, std::proofs::lemmas::List::drop_min))]
pub(crate) fn part<'a>(bytes: &'a [u8], from: usize, length: usize) -> &'a [u8]
    ensures { result.now ≡ take length (drop from bytes.now) }
{
    let (_, rest) = bytes.split_at(from.min(bytes.len()));
    let (part, _) = rest.split_at(length.min(rest.len()));
    part
}

impl<'a> Row<'a> {
    // The byte at a place.
    pub fn byte(self, at: usize) -> u8
        ensures { result ≡ slice_index self.entry.bytes.now at }
    {
        self.bytes.get(at).copied().unwrap_or(0)
    }

    // The number of the two bytes from a place on, the low one first.
    pub fn pair(self, at: u16) -> u16
        ensures { result ≡ pair_at self.entry.bytes.now at }
    {
        let at = at as usize;
        u16::from_le_bytes([self.byte(at), self.byte(at + 1)])
    }

    // Whether the row is known: its first byte.
    pub fn known(self) -> bool
        ensures { result ≡ (slice_index self.entry.bytes.now 0 == 1) }
    {
        self.byte(0) == 1
    }
}

impl<'a> Rows<'a> {
    // The rows that fill the bytes; or the bytes end too early, or go on.
    #[tactic(auto, using(crate::proofs::Fitting::rows_fit))]
    pub fn read(bytes: &'a [u8], grid: Grid) -> Result<Rows<'a>, Refusal>
        ensures { Reads grid bytes.now result }
    {
        let length = grid.groups as usize * grid.each as usize * grid.size as usize;
        if bytes.len() < length {
            return Err(Refusal::CutOff {
                length: bytes.len(),
            });
        }
        if bytes.len() > length {
            return Err(Refusal::GoesOn { at: length });
        }
        Ok(Rows { grid, bytes })
    }

    // Row n of a group; an empty one where there is none.
    #[tactic(auto, using(crate::proofs::Fitting::row_fits, crate::proofs::Fitting::no_row, crate::proofs::Fitting::cut_row))]
    pub fn row(self, group: u8, n: u32) -> Row<'a>
        ensures { result.bytes.now ≡ row_at self.entry.grid self.entry.bytes.now group n }
    {
        if group >= self.grid.groups || n >= self.grid.each {
            return Row { bytes: &[] };
        }
        let size = self.grid.size as usize;
        let at = (group as usize * self.grid.each as usize + n as usize) * size;
        Row {
            bytes: part(self.bytes, at, size),
        }
    }
}
