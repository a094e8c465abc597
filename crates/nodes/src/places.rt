// What travels together in the check and the run.
use layout::cursor::Cursor;
use layout::edition::Edition;

// Where a type stands, the edition of its layout, and the depth left to it.
#[derive(Clone, Copy)]
pub struct TypePlace {
    pub edition: Edition,
    pub depth: u8,
    pub at: Cursor,
}

// A path of `len` steps into what the selector at `top` gives.
#[derive(Clone, Copy)]
pub struct TopPath {
    pub top: usize,
    pub steps: [u16; 64],
    pub len: usize,
}
