// An index of a table's entries, by which those of an id are found without a scan. It is one slice: a link for each
// place where an entry can begin, and behind the links the heads of the chains, as many as there is room for. An id's
// chain is by its remainder. The head leads to the chain's last entry, the link of an entry to the one before it, and 0
// ends a chain.
ghost use Rattle.std.specs.Prelude.{◌≡◌, ◌≤◌, ◌<◌, ◌/◌, length};
ghost use Rattle.defaults.specs.code.Index.{links, head_of, pushed};

use layout::columns::FieldId;

// Where the head of an id's chain stands, in an index of this size for a table of this length.
pub fn head_of(len: usize, size: usize, id: FieldId) -> usize
    requires { links len < size }
    ensures value { result ≡ head_of len size id }
    ensures lower_bound { (links len ≤ result) × (result < size) }
{
    let links = len / 6 + 1;
    links + (id.0 as usize) % (size - links)
}

// The entry of this id that begins at `at` becomes the last of its chain.
pub fn push(len: usize, at: usize, id: FieldId, index: &mut [u16])
    requires { (links len < length index.old) × (at ≤ len) × (at < 65536) }
    ensures { index.new ≡ pushed len at id index.old }
{
    let h = head_of(len, index.len(), id);
    let y = at / 6;
    index[y] = index[h];
    index[h] = at as u16;
}
