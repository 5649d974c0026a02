// A line of the cases.

// An operation and its arguments, and where the reading stands after them.
#[derive(Clone, Copy)]
pub struct Line {
    pub operation: u64,
    pub a: u64,
    pub b: u64,
    pub c: u64,
    pub d: u64,
    pub at: usize,
}

// The next five numbers.
pub(crate) fn read_line(text: &[u8], at: usize) -> Line {
    let operation = test_scan::read_number(text, at);
    let a = test_scan::read_number(text, operation.at);
    let b = test_scan::read_number(text, a.at);
    let c = test_scan::read_number(text, b.at);
    let d = test_scan::read_number(text, c.at);
    Line {
        operation: operation.value,
        a: a.value,
        b: b.value,
        c: c.value,
        d: d.value,
        at: d.at,
    }
}
