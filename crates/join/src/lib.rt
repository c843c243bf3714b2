// The join of two trace files: the items of the first, then of the second.
#![tactic(auto)]

ghost use Rattle.std.specs.Prelude.{◌≡◌, ◌+◌, ◌*◌, ◌≤◌, ◌<◌, length};
ghost use Rattle.std.proofs.lemmas.List.Edits.{sets};
ghost use Rattle.pages.specs.Rows.{over};
ghost use Rattle.trace.specs.Layout.{items_from, encode_items};
ghost use Rattle.trace.specs.Refusals.{row, of_second};
ghost use Rattle.trace.specs.Verdict.{Sound, first};
ghost use Rattle.trace.specs.Check.{verdict};
ghost use Rattle.join.specs.Join.{Passed, joined_kind, joined_header, joined_file, meets_falling, join_tests, judged, join_answer, join_out};

use limits::ItemCount;
use trace::read::Items;
use trace::{Header, Reason, Refusal};

fn kind_of(a: u64, b: u64) -> u64
    ensures { result ≡ joined_kind a b }
{
    if a == 2 {
        return 2;
    }
    if b == 2 {
        return 2;
    }
    if a != 0 {
        return 1;
    }
    if b != 0 {
        return 1;
    }
    0
}

// The header of the joined file. Each count of a file fits four bytes, so the sums fit.
fn header_of(f: &[u8], g: &[u8]) -> Header
    requires { (23 ≤ length f.now) × (23 ≤ length g.now) }
    ensures value { result ≡ joined_header f.now g.now }
    ensures result_bound { result.items < 8589934592 }
{
    let a = trace::read::header_at(f);
    let b = trace::read::header_at(g);
    Header {
        kind: kind_of(a.kind, b.kind),
        filter: a.filter.max(b.filter),
        references: a.references + b.references,
        items: a.items + b.items,
    }
}

// Whether the second file begins before the first ends.
fn falls(f: &[u8], g: &[u8]) -> bool
    requires { (verdict f.now ≡ Sound) × (verdict g.now ≡ Sound) }
    ensures { result ≡ meets_falling f.now g.now }
{
    let n = trace::read::header_at(f).items as usize;
    let m = trace::read::header_at(g).items as usize;
    if n == 0 {
        return false;
    }
    if m == 0 {
        return false;
    }
    trace::read::item_at(g, 0).time < trace::read::item_at(f, n - 1).time
}

// Refusals 12, 13, 11 of two sound files.
fn verdict_of(f: &[u8], g: &[u8], room: usize) -> Result<(), Reason>
    requires { (verdict f.now ≡ Sound) × (verdict g.now ≡ Sound) }
    ensures { result ≡ first (join_tests f.now g.now room) }
{
    if falls(f, g) {
        return Err(Reason::JoinFalls);
    }
    let h = header_of(f, g);
    if ItemCount::new(h.items).is_none() {
        return Err(Reason::JoinTooLarge);
    }
    if 0xffff_ffff < h.references {
        return Err(Reason::JoinTooLarge);
    }
    if 23 + 19 * h.items <= room as u64 {
        return Ok(());
    }
    Err(Reason::NoRoom)
}

// A refusal of the second file by itself.
fn of_second(reason: Reason) -> Refusal
    ensures { result ≡ of_second (row reason) }
{
    let r = Refusal::from(reason);
    Refusal { trace: 2, ..r }
}

// The first file's own refusals, the second's, then 12, 13, 11.
fn judge(f: &[u8], g: &[u8], room: usize) -> Result<(), Refusal>
    ensures { result ≡ judged f.now g.now room }
{
    trace::judge(f)?;
    trace::judge(g).map_err(of_second)?;
    verdict_of(f, g, room)?;
    Ok(())
}

// The items of a file, written behind `at` items of the output, which is lent whole: an item is written at its number.
fn copy_items(items: Items, out: &mut [u8], at: usize)
    requires { 23 + 19 * (at + items.count) ≤ length out.old }
    ensures { out.new ≡ sets out.old (23 + 19 * at) (encode_items (items_from items.entry.file.now 0 items.entry.count)) }
{
    for i in 0..items.count {
        trace::write::item(out, at + i, items.at(i));
    }
}

// The joined file, written.
fn write_joined(f: &[u8], g: &[u8], out: &mut [u8]) -> Header
    requires { judged f.now g.now (length out.old) ≡ Passed }
    ensures value { result ≡ joined_header f.now g.now }
    ensures out_after { out.new ≡ over (joined_file f.now g.now) out.old }
{
    let first = Items::of(f);
    let second = Items::of(g);
    copy_items(first, out, 0);
    copy_items(second, out, first.count);
    let h = header_of(f, g);
    trace::write::header(out, h);
    h
}

// Writes the items of both files to the output, and answers the header written; or refuses, and changes nothing.
pub fn join(f: &[u8], g: &[u8], out: &mut [u8]) -> Result<Header, Refusal>
    ensures value { result ≡ join_answer f.now g.now (length out.old) }
    ensures out_after { out.new ≡ join_out f.now g.now out.old }
{
    judge(f, g, out.len())?;
    Ok(write_joined(f, g, out))
}
