// What is odd about a line as a whole, if anything.

// A byte order mark, or line ends that aren't CRLF.
fn of_bytes(line: &[u8]) -> Option<&'static [u8]> {
    if line.starts_with(b"\xef\xbb\xbf") {
        return Some(b"the file begins with a byte order mark (BOM), expected none");
    }
    if line.contains(&b'\n') {
        return Some(b"the line ends in LF, expected CRLF");
    }
    if line.contains(&b'\r') {
        return Some(b"a CR without its LF stands in the line, expected CRLF");
    }
    None
}

// The same, or semicolons or quotes in a line of a CSV file.
pub fn of_csv(line: &[u8]) -> Option<&'static [u8]> {
    if let Some(what) = of_bytes(line) {
        return Some(what);
    }
    if line.contains(&b';') {
        return Some(b"semicolons part the columns, expected commas");
    }
    if line.contains(&b'"') {
        return Some(b"a field stands in quotes, expected none");
    }
    None
}

// The same, or semicolons, quotes or tabs in a line of a network.
pub fn of_grid(line: &[u8]) -> Option<&'static [u8]> {
    if let Some(what) = of_bytes(line) {
        return Some(what);
    }
    if line.contains(&b';') {
        return Some(b"semicolons part the values, expected one space");
    }
    if line.contains(&b'"') {
        return Some(b"a value stands in quotes, expected none");
    }
    if line.contains(&b'\t') {
        return Some(b"a tab stands in the line, expected one space");
    }
    None
}
