// A cache as it is lent: a row of frames, most recent first. Its two columns are plain rows, and all work is done on those, as the scope asks: only `load` and `save` touch a frame.
#![tactic(auto)]

ghost use Rattle.std.specs.Prelude.{◌≡◌, ◌≤◌, length, take};
ghost use Rattle.pages.specs.Rows.{over};
ghost use Rattle.frames.specs.Frames.{pages_of, marks_of, frames_of};

// A page, and whether it was written since its fetch.
#[repr(C)]
#[derive(Clone, Copy)]
pub struct Frame {
    pub page: u64,
    pub written: bool,
}

// The columns of the first frames, as many as the columns have places.
pub fn load(fs: &[Frame], pages: &mut [u64], written: &mut [bool])
    requires { (length pages.old ≤ length fs.now) × (length written.old ≡ length pages.old) }
    ensures { (pages.new ≡ pages_of (take (length pages.old) fs.now))
        × (written.new ≡ marks_of (take (length pages.old) fs.now)) }
{
    // By place: over zipped iterators that write, the proof did not close.
    for i in 0..pages.len() {
        let f = fs[i];
        pages[i] = f.page;
        written[i] = f.written;
    }
}

// The frames of two columns, over the front of a row.
pub fn save(fs: &mut [Frame], pages: &[u64], written: &[bool])
    requires { (length pages.now ≤ length fs.old) × (length written.now ≡ length pages.now) }
    ensures { fs.new ≡ over (frames_of pages.now written.now) fs.old }
{
    // By place: over zipped iterators that write, the proof did not close.
    for i in 0..pages.len() {
        fs[i] = Frame {
            page: pages[i],
            written: written[i],
        };
    }
}
