// Runs the test cases of RFC 2202, section 3, and of RFC 4231 for SHA-256, from the files that the first two
// arguments name: for each case its number, its tag, and whether it is the file's digest. The digest's length says
// which hash it is: 20 bytes are SHA-1's, 32 are SHA-256's, and 16 are the first ones of SHA-256's. A line that is no
// case is told with its number. No random words: at one share none are drawn.
#![tactic(auto)]

ghost use Rattle.std.specs.Prelude.{◌≤◌, IfSome};

use lines::{Complaint, Fault};
use rules::{
    Algorithm, BLOCK_WORDS, CHAIN_WORDS, LONGEST_KEY, LONGEST_MESSAGE, Refusal, SHA256_CHAIN_WORDS,
    WORD_BYTES,
};
use std::fs::File;
use std::io::Read;
use std::rt::Files;
use std::{env, io};

// The longest file that is run, in bytes.
const LONGEST_FILE: u64 = 65536;

// The longest line that is read as a case, in bytes.
const LONGEST_LINE: usize = 11000;

// The bytes of a tag, of either hash, and of one cut short.
const SHA1_TAG: usize = CHAIN_WORDS * WORD_BYTES;

const SHA256_TAG: usize = SHA256_CHAIN_WORDS * WORD_BYTES;

const SHORT_TAG: usize = 16;

// How many cases there are, and how many of them are right.
#[derive(Clone, Copy, Default)]
struct Tally {
    cases: u64,
    right: u64,
}

// The tag of the data under the key by a hash, at one share. What the calls take of the stack is not taken before.
#[inline(never)]
fn make_tag(
    algorithm: Algorithm,
    key: &[u8],
    data: &[u8],
    tag: &mut [u8],
) -> Result<usize, Refusal> {
    let mut shares = [0; BLOCK_WORDS];
    calls::split_key(algorithm as u32, 1, key, &mut shares, &[])?;
    calls::tag(algorithm as u32, 1, &shares, data, tag, &[])
}

// The hash whose digests may have so many bytes, and how many a whole one has.
fn hash_of(size: usize) -> Option<(Algorithm, usize)>
    ensures { IfSome result (λ found. (size ≤ found.1) × (found.1 ≤ SHA256_TAG)) }
{
    match size {
        SHA1_TAG => Some((Algorithm::Sha1, SHA1_TAG)),
        SHORT_TAG | SHA256_TAG => Some((Algorithm::Sha256, SHA256_TAG)),
        _ => None,
    }
}

// A field of a line in hex, read into the room.
fn read_field<'a, 'b>(
    text: &[u8],
    others: usize,
    name: &'b [u8],
    room: &'a mut [u8],
) -> Result<&'a [u8], Complaint<'b>> {
    let most = room.len();
    match lines::hex_bytes(lines::field(text, others), room) {
        Ok(count) => Ok(&room[..count]),
        Err(fault) => Err(Complaint::Field { name, fault, most }),
    }
}

// Reads a line's digest, makes the tag, and writes how it went; whether the tag is the digest.
fn read_digest(text: &[u8], key: &[u8], data: &[u8]) -> Result<bool, Complaint<'static>> {
    let mut digest = [0; SHA256_TAG];
    let digest = read_field(text, 3, b"digest", &mut digest)?;
    let Some((algorithm, whole)) = hash_of(digest.len()) else {
        return Err(Complaint::Field {
            name: b"digest",
            fault: Fault::TooShort,
            most: SHA256_TAG,
        });
    };
    if !lines::field(text, 4).is_empty() {
        return Err(Complaint::Line(b"more than four fields"));
    }
    let mut tag = [0; SHA256_TAG];
    if make_tag(algorithm, key, data, &mut tag[..whole]).is_err() {
        return Err(Complaint::Line(b"the library refuses the case"));
    }
    let tag = &tag[..digest.len()];
    let right = tag == digest;
    lines::write_case(lines::field(text, 0), tag, right);
    Ok(right)
}

// Reads a line's data, and then the rest. The room for them is filled where it is made: it stands at the head of a
// function of its own, so that no line pays for it that is refused before.
fn read_data(text: &[u8], key: &[u8]) -> Result<bool, Complaint<'static>> {
    let mut data = [0; LONGEST_MESSAGE];
    let data = read_field(text, 2, b"data", &mut data)?;
    read_digest(text, key, data)
}

// Runs the case of a line, and writes how it went; whether its tag is its digest.
fn run_case(text: &[u8]) -> Result<bool, Complaint<'static>> {
    if LONGEST_LINE < text.len() {
        return Err(Complaint::Line(b"longer than 11000 bytes"));
    }
    if !lines::is_number(lines::field(text, 0)) {
        return Err(Complaint::Line(b"the first field is not the number of a case"));
    }
    let mut key = [0; LONGEST_KEY];
    let key = read_field(text, 1, b"key", &mut key)?;
    read_data(text, key)
}

// Whether a line's case is right. What is wrong with a line that has none is told.
fn is_right(line: u64, text: &[u8]) -> bool {
    match run_case(text) {
        Ok(right) => right,
        Err(complaint) => {
            lines::complain(line, complaint);
            false
        }
    }
}

// Runs each line of a file, and counts.
fn read_lines(text: &[u8]) -> Tally
    ensures { result.right ≤ result.cases }
{
    let mut tally = Tally::default();
    let mut line = 0;
    for content in text.split(|&b| b == b'\n') {
        line += 1;
        if lines::is_comment(content) {
            continue;
        }
        tally.cases += 1;
        if is_right(line, content) {
            tally.right += 1;
        }
    }
    tally
}

// Runs the cases of a file, and writes how many of them are right.
fn run_cases(text: &[u8]) {
    let tally = read_lines(text);
    lines::write_tally(tally.right, tally.cases);
}

// Reads the file of that name to its end, and runs it; one byte past the longest is enough to tell.
fn run_file(rt: &(impl Files + Alloc), name: &str) -> io::Result<()> {
    let mut text = Vec::new(rt.alloc());
    File::open(rt, name)?
        .take(LONGEST_FILE + 1)
        .read_to_end(&mut text)?;
    if LONGEST_FILE < text.len() as u64 {
        lines::write(b"the file has more than 65536 bytes\n");
    } else {
        run_cases(&text);
    }
    Ok(())
}

// Runs the file that an argument names, or says on standard error why it cannot be read.
fn run_named(rt: &(impl Files + AllocGlobal + Eprint), argument: Option<String>) -> io::Result<()> {
    let Some(name) = argument else {
        return eprintln!(rt; "two arguments, files of cases: Invalid argument");
    };
    match run_file(rt, name.as_str()) {
        Ok(()) => Ok(()),
        Err(error) => eprintln!(rt; "{name}: {error}"),
    }
}

fn main(rt: HostRuntime) -> io::Result<()> {
    let mut arguments = env::args(&rt)?;
    let _program = arguments.next();
    let first = run_named(&rt, arguments.next());
    let second = run_named(&rt, arguments.next());
    first.and(second)
}
