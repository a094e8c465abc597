// What a type begins with.
use direct::place::Place;
use layout::types::LeafType;

// A leaf's zone stands in the bytes of its place.
#[derive(Clone, Copy)]
pub enum TypeHead {
    Leaf(Place, LeafType),
    Struct(u16),
    List,
    Array(u32),
}
