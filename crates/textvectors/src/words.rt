// The words of a row, with a space between them.
fn is_space(x: &u8) -> bool {
    *x == b' '
}

pub fn octet(bytes: &[u8], i: usize) -> u8 {
    bytes.get(i).copied().unwrap_or(0)
}

pub fn word(row: &[u8], i: usize) -> &[u8] {
    row.split(|x| is_space(x)).nth(i).unwrap_or(b"")
}

// All from word i on.
pub fn rest(row: &[u8], i: usize) -> &[u8] {
    row.splitn(i.saturating_add(1), |x| is_space(x))
        .nth(i)
        .unwrap_or(b"")
}

// A decimal number below 2^64.
pub fn number(row: &[u8], i: usize) -> u64 {
    let mut n: u64 = 0;
    for x in word(row, i) {
        let digit = x.wrapping_sub(b'0');
        n = (n % 1844674407370955162 * 10).wrapping_add(u64::from(digit));
    }
    n
}

pub fn index(row: &[u8], i: usize) -> usize {
    number(row, i) as usize
}
