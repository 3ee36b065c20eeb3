// The rules of the library, as definitions over a width k and any number of shares. No code: only limits and sizes,
// and the types that answers have, with what turns an outcome into one.
#![tactic(auto)]

ghost use Rattle.std.specs.Prelude.{◌≡◌};
ghost use Rattle.rules.specs.Refusals.{answer_of, opened_of, code_of, algorithm_of};

// The largest share count: room for shares is made for so many.
pub const LARGEST: usize = 16;

// The longest key given for splitting, and the longest message, in bytes.
pub const LONGEST_KEY: usize = 1024;

pub const LONGEST_MESSAGE: usize = 65536;

// The sizes of both hashes: words of a block; bytes of a word, of a block and of the padding's length field.
pub const BLOCK_WORDS: usize = 16;

pub const WORD_BYTES: usize = 4;

pub const BLOCK_BYTES: usize = BLOCK_WORDS * WORD_BYTES;

pub const LENGTH_BYTES: usize = 8;

// SHA-1's own: words of a chain, rounds. And SHA-256's.
pub const CHAIN_WORDS: usize = 5;

pub const ROUNDS: usize = 80;

pub const SHA256_CHAIN_WORDS: usize = 8;

pub const SHA256_ROUNDS: usize = 64;

// Room for the words of the longest key; and for a block, for a chain of SHA-1 and for one of SHA-256, at the largest
// share count.
pub const KEY: usize = LONGEST_KEY / WORD_BYTES;

pub const BLOCK: usize = BLOCK_WORDS * LARGEST;

pub const CHAIN: usize = CHAIN_WORDS * LARGEST;

pub const SHA256_CHAIN: usize = SHA256_CHAIN_WORDS * LARGEST;

// Why a call is refused: the numbers of section 3. 0 says that it was not.
#[derive(Clone, Copy, PartialEq, Eq, Debug)]
pub enum Refusal {
    WrongCount = 1,
    WrongInput = 2,
    WrongOutput = 3,
    TooLong = 4,
    TooFewWords = 5,
    NotFit = 6,
}

// The hashes, by the codes that a state carries.
#[derive(Clone, Copy, PartialEq, Eq, Debug)]
pub enum Algorithm {
    Sha1 = 0,
    Sha256 = 1,
}

impl From<u32> for Algorithm {
    ghost from_gives = { λ code algorithm. algorithm ≡ algorithm_of code };

    fn from(code: u32) -> Algorithm {
        match code {
            0 => Algorithm::Sha1,
            _ => Algorithm::Sha256,
        }
    }
}

impl From<Algorithm> for u32 {
    ghost from_gives = { λ algorithm code. code ≡ code_of algorithm };

    fn from(algorithm: Algorithm) -> u32 {
        algorithm as u32
    }
}

// What a call on shares hands back: the number of section 3, and how many words it drew.
#[repr(C)]
#[derive(Clone, Copy)]
pub struct Answer {
    pub number: u32,
    pub drawn: usize,
}

impl From<Result<usize, Refusal>> for Answer {
    ghost from_gives = { λ outcome answer. answer ≡ answer_of outcome };

    fn from(outcome: Result<usize, Refusal>) -> Answer {
        match outcome {
            Ok(drawn) => Answer { number: 0, drawn },
            Err(refusal) => Answer {
                number: refusal as u32,
                drawn: 0,
            },
        }
    }
}

// What an opening hands back: the number, and the word.
#[repr(C)]
#[derive(Clone, Copy)]
pub struct Opened {
    pub number: u32,
    pub word: u32,
}

impl From<Result<u32, Refusal>> for Opened {
    ghost from_gives = { λ outcome opened. opened ≡ opened_of outcome };

    fn from(outcome: Result<u32, Refusal>) -> Opened {
        match outcome {
            Ok(word) => Opened { number: 0, word },
            Err(refusal) => Opened {
                number: refusal as u32,
                word: 0,
            },
        }
    }
}

// The masked chain value of SHA-1: one record of 80 words, of which 5n are used.
#[repr(C)]
#[derive(Clone, Copy)]
pub struct Chain {
    pub shares: [u32; CHAIN],
}

// What a compression of SHA-1 hands back: the number, how many words it drew, and the new chain.
#[repr(C)]
#[derive(Clone, Copy)]
pub struct Compressed {
    pub number: u32,
    pub drawn: usize,
    pub chain: Chain,
}

// The masked chain value of SHA-256: 128 words, of which 8n are used. A state keeps SHA-1's in it too, and uses 5n.
#[repr(C)]
#[derive(Clone, Copy)]
pub struct Sha256Chain {
    pub shares: [u32; SHA256_CHAIN],
}

// What a compression of SHA-256 hands back.
#[repr(C)]
#[derive(Clone, Copy)]
pub struct Sha256Compressed {
    pub number: u32,
    pub drawn: usize,
    pub chain: Sha256Chain,
}

// What is carried from piece to piece of a message: the share count, how many bytes were fed so far, how many words
// start and feeds drew for them, a mark that is not 0 once the tag was handed out, the hash, the chains after the inner
// and after the outer key block, and the bytes of the block that is not yet full, the first `bytes` mod 64 of `tail`.
#[repr(C)]
#[derive(Clone, Copy)]
pub struct State {
    pub n: usize,
    pub bytes: usize,
    pub drawn: usize,
    pub finished: u32,
    pub hash: u32,
    pub inner: Sha256Chain,
    pub outer: Sha256Chain,
    pub tail: [u8; BLOCK_BYTES],
}

// What start, feed and finish hand back: the number, how many words were drawn, and the state.
#[repr(C)]
#[derive(Clone, Copy)]
pub struct Streamed {
    pub number: u32,
    pub drawn: usize,
    pub state: State,
}
