// What a lent buffer holds before a call, and whether it holds what it should afterwards. The noise differs from place to place,
// so that a byte moved, and not only a byte written, is seen.

// A byte of the front, or noise beyond it.
pub fn byte(front: &[u8], i: usize) -> u8 {
    front.get(i).copied().unwrap_or((i % 251) as u8)
}

// A number of `over`, behind it one of what stood there before, or noise beyond both.
pub fn number(over: &[u64], before: &[u64], i: usize) -> u64 {
    match over.get(i).or(before.get(i)) {
        Some(x) => *x,
        None => (i as u64).wrapping_add(7000000),
    }
}

// A mark among marks that are numbers, 1 for a written page; the noise is every other one.
pub fn mark(over: &[u64], before: &[u64], i: usize) -> bool {
    number(over, before, i) % 2 == 1
}

pub fn fill<T: Drop, D: Fn(usize) -> T>(row: &mut [T], due: D)
    requires { D.IsAlwaysCallable due }
{
    for (i, place) in row.iter_mut().enumerate() {
        *place = due(i);
    }
}

pub fn holds<T: PartialEq + Drop, D: Fn(usize) -> T>(row: &[T], due: D) -> bool
    requires { D.IsAlwaysCallable due }
{
    row.iter().enumerate().all(|(i, x)| *x == due(i))
}
