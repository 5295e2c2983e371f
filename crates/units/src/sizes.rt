// The most that there can be.

// Bytes of a section: section_length is 4,093 at most, and 3 bytes stand before what it counts.
pub const MOST_SECTION: usize = 4096;

// Fields of a section: each has a bit at least.
pub const MOST_FIELDS: usize = 32768;

// Characters of a text: the base64 of a longest section.
pub const MOST_TEXT: usize = 5464;

// Bytes that a text of so many characters can have, which is more than a section can.
pub const MOST_TEXT_BYTES: usize = 4098;
