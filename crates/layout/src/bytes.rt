// Names, zones and texts are bytes, compared as bytes. `wide` makes an offset of a table's entry.
ghost use Rattle.std.specs.Prelude.{◌≡◌};
ghost use Rattle.layout.specs.Bytes.{same_bytes};

// Where a name or a zone stands.
#[derive(Clone, Copy)]
pub struct Span {
    pub start: usize,
    pub len: usize,
}

pub fn same_bytes(a: &[u8], b: &[u8]) -> bool
    ensures { result ≡ same_bytes a.now b.now }
{
    let mut i = 0;
    while i < a.len() {
        if b.len() <= i {
            return false;
        }
        if a[i] != b[i] {
            return false;
        }
        i += 1;
    }
    b.len() <= i
}

// A function of its own, since an element of a slice that is cast where it is read has to be shown to fit.
pub fn wide(x: u16) -> usize
    ensures { result ≡ x }
{
    x as usize
}
