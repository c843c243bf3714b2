// The two reductions of a trace, FastSlim and FastSlim-Demand.
#![tactic(auto)]

ghost use Rattle.std.specs.Prelude.{◌≡◌, true, ◌+◌, ◌*◌, ◌≤◌, length, get_or, take, set};
ghost use Rattle.std.proofs.lemmas.List.Edits.{sets};
ghost use Rattle.pages.specs.Rows.{over};
ghost use Rattle.pages.specs.Pages.{has, place};
ghost use Rattle.limits.proofs.Numbers.{filter_most};
ghost use Rattle.filter.specs.Filter.{FirstNoted, flags_of, Clear};
ghost use Rattle.filter.specs.Tables.{pages};
ghost use Rattle.trace.specs.Verdict.{Sound};
ghost use Rattle.trace.specs.Layout.{encode_items, items_from};
ghost use Rattle.epochs.specs.Modes.{number_of};
ghost use Rattle.epochs.specs.Keep.{reduce as reduced};
ghost use Rattle.slim.specs.Reduce.{mode_judged, reduced_header, reduced_file, reduce_verdict, reduce_answer, reduce_out};
ghost use Rattle.slim.specs.Passes.{limit, CanLook, Looked, Within, NoneNoted, CanKeep, kept_there, Flags, CanMend, Mended, CanSlim};

use epochs::Mode;
use filter::{Rows, Table, flags};
use limits::FilterSize;
use trace::{Header, Item, Reason, Refusal};

// How many pages a stretch may leave in the filter.
fn limit_of(mode: Mode, size: usize, held: usize) -> usize
    requires { held ≤ filter_most }
    ensures { result ≡ limit mode size held }
{
    match mode {
        Mode::FastSlim => held + 1,
        Mode::Demand => size,
    }
}

// First pass over a stretch: where it ends. The filter holds its pages then, and notes the last item of each.
// The loop goes over the table's rows, and does with them what the table's own methods do. A table is one place in memory with its rows: by the methods each item had the
// file's place, the base and the count read there, and the count written, and a trace without repeats took a fifth longer.
fn look(table: &mut Table, n: usize, from: usize, most: usize) -> usize
    requires { CanLook table.old.file.now n from most table.old.held }
    ensures looked { Looked table.new.file.now n from most (pages table.old) result (pages table.new) table.new.last }
    ensures within { Within n from most result table.new.held }
    ensures file { table.new.file.now ≡ table.old.file.now }
{
    let file = table.file;
    let base = table.base;
    let mut held = table.held;
    let last = &mut table.last;
    let heads = &mut table.chains.heads;
    let next = &mut table.chains.next;
    let mut end = n;
    for k in from..n {
        let x = trace::read::item_at(file, k);
        let rows = Rows {
            file,
            last,
            held,
            base,
            heads,
            next,
        };
        if let Some(j) = rows.find(x.page) {
            last[j] = k as u32;
        } else {
            if most <= held {
                end = k;
                break;
            }
            filter::add(file, last, held, base, heads, next, k);
            held += 1;
        }
    }
    table.held = held;
    end
}

// The first item from k on that the filter may note, where it is known to note none up to `skip`.
fn noted_from(table: &Table, k: usize, skip: usize) -> usize
    requires k_in_bounds { 23 + 19 * (k + 1) ≤ length table.now.file.now }
    requires none_noted { NoneNoted (take table.now.held table.now.last) k skip }
    ensures { FirstNoted (take table.now.held table.now.last) k result }
{
    if k < skip {
        return skip;
    }
    table.first_noted(k)
}

// A write of this page is dropped: the page is owed one. Often it was owed one before: then its flag tells that, and in a short chain no page is read.
fn owe(table: &Table, owed: &mut flags::Flags, page: u64)
    requires { has page (pages table.now) ≡ true }
    ensures { flags_of owed.new.bytes ≡ set (flags_of owed.old.bytes) (place page (pages table.now)) 1 }
{
    if let Some(j) = table.find_by_flag::<false>(owed, page) {
        owed.put(j, true);
    }
}

// Second pass: writes each item that is the first of its page in the epoch, or the last of it in the stretch, and answers how many items are written then.
// A page of which a write is dropped is owed one. The stretch's new pages stand behind the `had` that were there before, in the order of their first items,
// so that a first is known by one place; a last is an item that the filter notes. Up to `skip` it notes none.
// Items are written by number, so the output is lent whole, with how many are written: `mend` goes back over it.
fn keep(
    table: &Table,
    from: usize,
    end: usize,
    had: usize,
    owed: &mut flags::Flags,
    out: &mut [u8],
    done: usize,
) -> usize
    requires { CanKeep table.now.file.now from end had done (pages table.now) table.now.last (flags_of owed.old.bytes) out.old }
    ensures done_value { result ≡ done + length (kept_there table.now.file.now from end had (pages table.now)) }
    ensures out_after { out.new ≡ sets out.old (23 + 19 * done) (encode_items (kept_there table.now.file.now from end had (pages table.now))) }
    ensures flags { Flags table.now.file.now from end had (pages table.now) (flags_of owed.old.bytes) (flags_of owed.new.bytes) }
{
    let mut c = had;
    let mut m = done;
    let mut skip = from;
    for k in from..end {
        let x = trace::read::item_at(table.file, k);
        if table.is_at(x.page, c) {
            trace::write::item(out, m, x);
            c += 1;
            m += 1;
        } else {
            skip = noted_from(table, k, skip);
            if skip == k {
                trace::write::item(out, m, x);
                m += 1;
            } else if x.written {
                owe(table, owed, x.page);
            }
        }
    }
    m
}

// Back over the items of an epoch in the output, until all is settled: the last of each page that is owed a write becomes one.
// No flag is set then, so that no page of the next epoch has to have its own cleared.
fn mend(table: &Table, owed: &mut flags::Flags, out: &mut [u8], from: usize, to: usize)
    requires { CanMend from to table.now.held out.old (flags_of owed.old.bytes) }
    ensures mended { Mended (pages table.now) (flags_of owed.old.bytes) from to out.old out.new }
    ensures clear { Clear 0 (flags_of owed.new.bytes) }
{
    for k in (from..to).rev() {
        if owed.set == 0 {
            return;
        }
        let x = trace::read::item_at(out, k);
        if let Some(j) = table.find_by_flag::<true>(owed, x.page) {
            owed.put(j, false);
            trace::write::item(out, k, Item { written: true, ..x });
        }
    }
    owed.clear();
}

// An epoch ends: its items are mended if one of its pages is owed a write. Else nothing is called, which short epochs would feel.
fn end_epoch(table: &Table, owed: &mut flags::Flags, out: &mut [u8], from: usize, to: usize)
    requires { CanMend from to table.now.held out.old (flags_of owed.old.bytes) }
    ensures mended { Mended (pages table.now) (flags_of owed.old.bytes) from to out.old out.new }
    ensures clear { Clear 0 (flags_of owed.new.bytes) }
{
    if 0 < owed.set {
        mend(table, owed, out, from, to);
    }
}

// All stretches, one after the other: where an epoch ends, since the filter is full or the trace is over, its items are mended and the filter is emptied.
// The count of items goes beside the table: in it, each turn of a loop that changes the table would have to say that the count is the same.
fn slim(
    table: &mut Table,
    n: usize,
    mode: Mode,
    size: usize,
    owed: &mut flags::Flags,
    out: &mut [u8],
) -> usize
    requires { CanSlim table.old.file.now n size table.old.held (flags_of owed.old.bytes) out.old }
    ensures value { result ≡ length (reduced mode size (items_from table.old.file.now 0 n)) }
    ensures out_after { out.new ≡ sets out.old 23 (encode_items (reduced mode size (items_from table.old.file.now 0 n))) }
{
    let mut i = 0;
    let mut past = 0;
    let mut m = 0;
    // No `for`: a stretch is as long as `look` finds it.
    while i < n {
        let had = table.held;
        let most = limit_of(mode, size, had);
        let end = look(table, n, i, most);
        m = keep(table, i, end, had, owed, out, m);
        i = end;
        if (table.held == size) | (i == n) {
            end_epoch(table, owed, out, past, m);
            past = m;
            table.empty();
        }
    }
    m
}

// The file's own refusals, then 7, 8, 11, 14; or the mode that is asked for, by a number, since every number is answered.
fn judge(file: &[u8], mode: u64, size: u64, room: usize) -> Result<Mode, Reason>
    ensures { result ≡ mode_judged file.now mode size room }
{
    trace::judge(file)?;
    let asked = Mode::try_from(mode)?;
    if FilterSize::new(size).is_none() {
        return Err(Reason::BadSetting);
    }
    let h = trace::read::header_at(file);
    if h.kind != 0 {
        return Err(Reason::NotWhole);
    }
    // Kept items stand in file order, so 14 never occurs: that is proved, and nothing is tested.
    if file.len() <= room {
        return Ok(asked);
    }
    Err(Reason::NoRoom)
}

// The reduced file, written.
fn write_reduced(file: &[u8], mode: Mode, size: u64, out: &mut [u8]) -> Header
    requires { reduce_verdict file.now (number_of mode) size (length out.old) ≡ Sound }
    ensures value { result ≡ reduced_header file.now (number_of mode) size }
    ensures out_after { out.new ≡ over (reduced_file file.now (number_of mode) size) out.old }
{
    let h = trace::read::header_at(file);
    let n = h.items as usize;
    let mut table = Table::new(file);
    let mut owed = flags::Flags::new();
    let m = slim(&mut table, n, mode, size as usize, &mut owed, out);
    let w = Header {
        kind: u64::from(mode),
        filter: size,
        references: h.references,
        items: m as u64,
    };
    trace::write::header(out, w);
    w
}

// Writes to the output the items of a whole trace that the mode keeps, with its filter size, and answers the header written; or refuses, and changes nothing.
// The mode is a number, since every number is answered.
pub fn reduce(file: &[u8], mode: u64, size: u64, out: &mut [u8]) -> Result<Header, Refusal>
    ensures value { result ≡ reduce_answer file.now mode size (length out.old) }
    ensures out_after { out.new ≡ reduce_out file.now mode size out.old }
{
    let asked = judge(file, mode, size, out.len())?;
    Ok(write_reduced(file, asked, size, out))
}
