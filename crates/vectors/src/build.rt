// Trace files made from numbers. Nothing here is shared with the code that is tried: each byte is written by the paper's table.
ghost use Rattle.std.specs.Prelude.{◌≤◌};

use trace::Header;

// The first `len` of the bytes; the others are zero, except where one was put there. A count stands beside them because there is no heap.
#[derive(Clone, Copy)]
pub struct Bytes<const N: usize> {
    bytes: [u8; N],
    len: usize,
    ghost fits: { len ≤ N },
}

// No file of the table is longer; what goes beyond is dropped.
pub type File = Bytes<512>;

pub fn low(x: u64) -> u8 {
    x.to_le_bytes()[0]
}

impl<const N: usize> Bytes<N> {
    pub fn new() -> Self {
        Bytes {
            bytes: [0; N],
            len: 0,
        }
    }

    pub fn as_slice(&self) -> &[u8] {
        &self.bytes[..self.len]
    }

    // Where there is room.
    pub fn push(&mut self, b: u8) {
        if let Some(place) = self.bytes.get_mut(self.len) {
            *place = b;
            self.len += 1;
        }
    }

    // Another byte at a place, also behind the last.
    pub fn put(&mut self, at: usize, b: u8) {
        if let Some(place) = self.bytes.get_mut(at) {
            *place = b;
        }
    }

    // The same bytes, fewer or more of them.
    pub fn resize(&mut self, len: usize) {
        self.len = len.min(N);
    }

    // A number of so many bytes, low byte first.
    fn number(&mut self, bytes: usize, x: u64) {
        for b in x.to_le_bytes().iter().take(bytes) {
            self.push(*b);
        }
    }

    fn field(&mut self, tag: u8, bytes: usize, x: u64) {
        self.push(tag);
        self.number(2, bytes as u64);
        self.number(bytes, x);
    }

    fn item(&mut self, tag: u8, page: u64, time: u64) {
        self.push(tag);
        self.number(2, 16);
        self.number(8, page);
        self.number(8, time);
    }
}

// The tag of an item that is a read, and of one that is a write: numbers of the layout, as are those below, any of which a line may ask for.
fn tag_of(mark: u64) -> u8 {
    if mark == 0 { 5 } else { 6 }
}

// The items are pages and times in turn, as a line has them. Where there are fewer marks than items, those without one are reads. The header need not fit the
// items: a file may be wrong.
pub fn file_of(h: Header, items: &[u64], marks: &[u64]) -> File {
    let mut file = File::new();
    file.field(1, 1, h.kind);
    file.field(2, 2, h.filter);
    file.field(3, 4, h.references);
    file.field(4, 4, h.items);
    let (pairs, _) = items.as_chunks::<2>();
    for (i, [page, time]) in pairs.iter().enumerate() {
        let mark = marks.get(i).copied().unwrap_or(0);
        file.item(tag_of(mark), *page, *time);
    }
    file
}
