// The refusals of paper 01's table.
ghost use Rattle.std.specs.Prelude.{◌≡◌};
ghost use Rattle.units.specs.Refusals.{number_of};

// Why a call was refused, in the order of the table and under its number.
#[derive(Clone, Copy, PartialEq, Eq)]
pub enum Refusal {
    Short = 1,
    Table = 2,
    Syntax = 3,
    Size = 4,
    Crc = 5,
    Version = 6,
    Crypt = 7,
    Command = 8,
    Loop = 9,
    Descriptor = 10,
    Room = 11,
    TextLen = 12,
    TextChar = 13,
    TextBits = 14,
    Sheet = 15,
    NotHere = 16,
    Sealed = 17,
}

impl Refusal {
    // The table's number.
    pub fn number(self) -> u64
        ensures { result ≡ number_of self }
    {
        self as u64
    }
}
