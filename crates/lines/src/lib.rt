// Lines of fields, in hex or in decimal: reading them, and telling what is wrong with one.
#![tactic(auto)]

ghost use Rattle.std.specs.Prelude.{◌≡◌, ◌≢◌, ◌+◌, ◌*◌, ◌/◌, ◌%◌, ◌≤◌, ◌<◌, ◌↔◌, length};
ghost use Rattle.std.specs.Prelude.{IsNone, IfSome, IsSomeAnd, IfOk, IsErrOf};
ghost use Rattle.io.specs.Counts.{IsPrefixLen};

// The descriptor of standard output.
const STDOUT: i32 = 1;

// What may be wrong with a field in hex.
#[derive(Clone, Copy, PartialEq, Eq, Debug)]
pub enum Fault {
    Missing,
    BadDigit,
    Odd,
    TooLong,
    TooShort,
}

// ---- reading

// The value of a hex digit in lower case.
fn nibble(b: u8) -> Option<u8>
    ensures upper_bound { IfSome result (λ n. n < 16) }
    ensures decimal { 48 ≤ b → b ≤ 57 → IsSomeAnd result (λ n. n + 48 ≡ b) }
    ensures letter { 97 ≤ b → b ≤ 102 → IsSomeAnd result (λ n. n + 87 ≡ b) }
    ensures other { (b < 48 → IsNone result) × (57 < b → b < 97 → IsNone result) × (102 < b → IsNone result) }
{
    match b {
        b'0'..=b'9' => Some(b - b'0'),
        b'a'..=b'f' => Some(b - b'a' + 10),
        _ => None,
    }
}

// Reads a field of hex digits in pairs to the start of out, and says how many bytes it has. No digit is left over.
pub fn hex_bytes(field: &[u8], out: &mut [u8]) -> Result<usize, Fault>
    ensures prefix_len { IfOk result (λ count. IsPrefixLen count out.new) }
    ensures all { IfOk result (λ count. 2 * count ≡ length field.now) }
    ensures same_room { length out.new ≡ length out.old }
    ensures missing { IsErrOf result Fault.Missing ↔ (length field.now ≡ 0) }
    ensures odd { IsErrOf result Fault.Odd ↔ (length field.now % 2 ≢ 0) }
    ensures too_long { IsErrOf result Fault.TooLong
        ↔ ((length field.now % 2 ≡ 0) × (2 * length out.old < length field.now)) }
{
    if field.is_empty() {
        return Err(Fault::Missing);
    }
    let (pairs, rest) = field.as_chunks::<2>();
    if !rest.is_empty() {
        return Err(Fault::Odd);
    }
    if out.len() < pairs.len() {
        return Err(Fault::TooLong);
    }
    for (byte, &[high, low]) in out.iter_mut().zip(pairs) {
        let (Some(high), Some(low)) = (nibble(high), nibble(low)) else {
            return Err(Fault::BadDigit);
        };
        *byte = high * 16 + low;
    }
    Ok(pairs.len())
}

// Whether a byte stands between fields.
fn is_blank(b: u8) -> bool {
    matches!(b, b' ' | b'\t' | b'\r')
}

// How many blanks a line begins with, or how many bytes that are none.
fn run_of(line: &[u8], blank: bool) -> usize
    ensures { result ≤ length line.now }
{
    line.iter()
        .position(|&b| is_blank(b) != blank)
        .unwrap_or(line.len())
}

// The field of a line that comes after so many others, empty where there is none.
pub fn field(line: &[u8], others: usize) -> &[u8] {
    let mut rest = &line[run_of(line, true)..];
    for _ in 0..others {
        rest = &rest[run_of(rest, false)..];
        rest = &rest[run_of(rest, true)..];
    }
    &rest[..run_of(rest, false)]
}

// Whether a line is a comment or blank.
pub fn is_comment(line: &[u8]) -> bool {
    matches!(line.iter().find(|&&b| !is_blank(b)), None | Some(b'#'))
}

// Whether a field is a number: one decimal digit or more.
pub fn is_number(text: &[u8]) -> bool {
    !text.is_empty() && text.iter().all(|b| b.is_ascii_digit())
}

// ---- writing

// Writes to standard output.
pub fn write(text: &[u8]) {
    io::write_all(STDOUT, text);
}

// Writes bytes in hex.
fn write_hex(bytes: &[u8]) {
    for &b in bytes {
        io::print_hex(STDOUT, u64::from(b), 2);
    }
}

// What is wrong with a line: as a whole, or with a field in hex that has room for so many bytes.
#[derive(Clone, Copy, Debug)]
pub enum Complaint<'a> {
    Line(&'a [u8]),
    Field {
        name: &'a [u8],
        fault: Fault,
        most: usize,
    },
}

// Tells what is wrong with a line.
pub fn complain(line: u64, complaint: Complaint) {
    write(b"line ");
    io::print_decimal(STDOUT, line);
    write(b": ");
    match complaint {
        Complaint::Line(what) => {
            write(what);
            write(b"\n");
        }
        Complaint::Field { name, fault, most } => write_fault(name, fault, most),
    }
}

// Writes what is wrong with a field in hex, to the line's end.
fn write_fault(name: &[u8], fault: Fault, most: usize) {
    write(b"the ");
    write(name);
    match fault {
        Fault::Missing => write(b" is missing\n"),
        Fault::BadDigit => write(b" has a bad hex digit\n"),
        Fault::Odd => write(b" has an odd number of hex digits\n"),
        Fault::TooLong => write_limit(b" has more than ", most),
        Fault::TooShort => write_limit(b" has fewer than ", most),
    }
}

// Writes that a field's bytes are more or fewer than it may have, to the line's end.
fn write_limit(comparison: &[u8], most: usize) {
    write(comparison);
    io::print_decimal(STDOUT, most as u64);
    write(b" bytes\n");
}

// Writes the line of a case: its number, its tag and whether that is right.
pub fn write_case(number: &[u8], tag: &[u8], right: bool) {
    write(b"case ");
    write(number);
    write(b" ");
    write_hex(tag);
    write(if right { b" ok\n" } else { b" WRONG\n" });
}

// Writes how many of the cases are right.
pub fn write_tally(right: u64, cases: u64) {
    if cases == 0 {
        write(b"the file has no cases\n");
        return;
    }
    io::print_decimal(STDOUT, right);
    write(b" of ");
    io::print_decimal(STDOUT, cases);
    write(b" ok\n");
}
