// The fields of a section, one after another, as their widths in lent memory. What a field holds is taken from the section's
// bits or, where there is a sheet, from the sheet's numbers.
#![tactic(auto)]

ghost use Rattle.std.specs.Prelude.{◌≡◌, ◌+◌, ◌*◌, ◌≤◌, length};
ghost use Rattle.fields.specs.Fields as defined;
ghost use Rattle.fields.specs.Fields.{plan, laid, times_on, bytes_to, roomy, kept};

use units::MOST_FIELDS;

// The bit after the fields so far, and how many fields there are.
#[derive(Clone, Copy)]
pub struct Place {
    pub at: usize,
    pub number: usize,
}

// What the fields hold: a section's bits or, where there is a sheet, the sheet's numbers.
#[derive(Clone, Copy)]
pub struct Numbers<'a> {
    pub section: &'a [u8],
    pub sheet: &'a [u64],
}

impl Numbers<'_> {
    ghost use Rattle.fields.specs.SoFar.{given};

    // The number of the field of `width` bits that stands at bit `at` and is the sheet's number `number`.
    pub fn value(self, at: usize, number: usize, width: usize) -> u64
        ensures { result ≡ given self.entry at number width }
    {
        if self.sheet.is_empty() {
            return bits::read(self.section, at, width);
        }
        if number < self.sheet.len() {
            return held(self.sheet[number], width);
        }
        0
    }
}

// The number, where so many bits hold it.
fn held(x: u64, width: usize) -> u64
    ensures { result ≡ defined.held x width }
{
    if 64 <= width {
        return x;
    }
    if (x >> width) == 0 { x } else { 0 }
}

// Whether the memory has room for the place, and the place is one that fields in such memory come to. Memory longer than
// 32,768, more than any section needs, is not used.
pub fn has_room(widths: &[u8], p: Place) -> bool
    ensures { result ≡ roomy (plan p widths.now) }
{
    if MOST_FIELDS < widths.len() {
        return false;
    }
    if widths.len() < p.number {
        return false;
    }
    p.at <= 104 + 255 * p.number
}

// The fields so far: the bit after them, how many they are, and their widths at the front of lent memory, which has room for them.
#[derive(Drop)]
pub struct Fields<'a> {
    pub widths: &'a mut [u8],
    pub at: usize,
    pub number: usize,
    ghost fits: { number ≤ length widths.now },
    ghost reached: { at ≤ 104 + 255 * number },
    ghost short: { length widths.now ≤ 32768 },
}

impl Fields<'_> {
    ghost use Rattle.fields.specs.SoFar.{so_far, after, SameMemory};

    // The bit after them, and how many they are.
    pub fn place(&self) -> Place
        ensures { result ≡ after self.now }
    {
        Place {
            at: self.at,
            number: self.number,
        }
    }

    // Fields of these widths more, where the memory has room for them all.
    pub fn lay(&mut self, more: &[u8])
        ensures plan { so_far self.new ≡ laid more.now (so_far self.old) }
        ensures memory { SameMemory self.old self.new }
    {
        let number = self.number;
        if self.widths.len() - number < more.len() {
            return;
        }
        let mut at = self.at;
        for width in more {
            at += *width as usize;
        }
        let end = number + more.len();
        let widths = &mut *self.widths;
        widths[number..end].copy_from_slice(more);
        self.at = at;
        self.number = end;
    }

    // So many such groups.
    pub fn groups(&mut self, count: u64, more: &[u8])
        ensures plan { so_far self.new ≡ times_on count (laid more.now) (so_far self.old) }
        ensures memory { SameMemory self.old self.new }
    {
        for _ in 0..count {
            self.lay(more);
        }
    }

    // Bytes up to the end of the part.
    pub fn bytes(&mut self, end: usize)
        ensures plan { so_far self.new ≡ bytes_to end (so_far self.old) }
        ensures memory { SameMemory self.old self.new }
    {
        let at = self.at;
        if end <= at {
            return;
        }
        self.groups(((end - at - 1) / 8 + 1) as u64, &[8]);
    }
}

// Fields of these widths from a place on, where the memory has room for the place and for them all.
pub fn group(widths: &mut [u8], p: Place, more: &[u8]) -> Place
    ensures { plan result widths.new ≡ kept (laid more.now) (plan p widths.old) }
{
    if !has_room(widths, p) {
        return p;
    }
    let mut fields = Fields {
        widths,
        at: p.at,
        number: p.number,
    };
    fields.lay(more);
    fields.place()
}

// So many such groups.
pub fn groups(widths: &mut [u8], p: Place, count: u64, more: &[u8]) -> Place
    ensures { plan result widths.new ≡ kept (times_on count (laid more.now)) (plan p widths.old) }
{
    if !has_room(widths, p) {
        return p;
    }
    let mut fields = Fields {
        widths,
        at: p.at,
        number: p.number,
    };
    fields.groups(count, more);
    fields.place()
}

// Bytes from a place up to the end of the part.
pub fn bytes(widths: &mut [u8], p: Place, end: usize) -> Place
    ensures { plan result widths.new ≡ kept (bytes_to end) (plan p widths.old) }
{
    if !has_room(widths, p) {
        return p;
    }
    let mut fields = Fields {
        widths,
        at: p.at,
        number: p.number,
    };
    fields.bytes(end);
    fields.place()
}
