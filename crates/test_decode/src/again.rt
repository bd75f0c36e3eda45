// What the writer made of a decoded message, compared with the bytes that it came from.
use wire_write::Unwritten;

// As many bytes were written as the message has, and the same.
pub fn same(s: &[u8], out: &[u8], w: Result<usize, Unwritten>) -> bool {
    let Ok(n) = w else {
        return false;
    };
    if n != s.len() {
        return false;
    }
    out.starts_with(s)
}

// The first items of a column.
pub fn first<T>(column: &[T], n: usize) -> &[T] {
    if column.len() < n {
        return column;
    }
    &column[..n]
}

// The items of a column from a place on.
pub fn after<T>(column: &[T], at: usize) -> &[T] {
    if column.len() < at {
        return column;
    }
    &column[at..]
}
