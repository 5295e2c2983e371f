// What is handed on from turn to turn over a stream of lines.

// What is held of a line that was cut.
#[derive(Clone, Copy)]
pub enum Held {
    // So many characters at the front of the carry buffer.
    Characters(usize),
    // More than any text has.
    TooLong,
}

// What a turn did: what is held now, how much of the input was taken, and how much of the output was written.
#[derive(Clone, Copy)]
pub struct Turn {
    pub held: Held,
    pub taken: usize,
    pub written: usize,
}
