// What a cue is about.

// Whether the whole program is meant, or so many components are.
#[derive(Clone, Copy)]
pub enum Mode {
    Program,
    Components(u8),
}
