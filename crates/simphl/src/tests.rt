//! Commands over files and sinks in memory.

use command_outcome::Status;
use outside::{MemoryFiles, MemorySink};
use std::alloc::{AllocError, Global};
use std::test::Fail;
use top_call::simphl;

/// The bytes that each sink has room for.
const ROOM: usize = 80;

/// The greatest source, in bytes.
const MOST_SOURCE: usize = 262_144;

/// The greatest data file, in bytes.
const MOST_DATA: usize = 1_048_576;

const SWAP: &str = "fn swap(x: u8, y: u8) -> (u8, u8) { (y, x) }";

/// Each source, the word of its function, the status, and the text on `out` or, of a refusal, on `err`.
static SOURCES: [(&str, &str, Status, &str); 26] = [
    ("fn id(x: u8) -> u8 { x }", "fn=id", Status::Done, "IA==\n"),
    (
        "fn second(x: u8, y: u8) -> u8 { y }",
        "fn=second",
        Status::Done,
        "iDg=\n",
    ),
    (SWAP, "fn=swap", Status::Done, "wQcaCgA=\n"),
    (
        "fn twice(x: u8) -> (u8, u8) { (x, x) }",
        "fn=twice",
        Status::Done,
        "iBA=\n",
    ),
    // Of three bytes and of two the first is picked by equal nodes with different arrows.
    (
        "fn turn(x: u8, y: u8, z: u8) -> (u8, (u8, u8)) { (z, (x, y)) }",
        "fn=turn",
        Status::Done,
        "0IOONTYHCoWI\n",
    ),
    (
        "fn left(a: u8, b: u8, c: u8, d: u8, e: u8, f: u8, g: u8, h: u8) -> ((((((((u8, u8), u8), u8), u8), u8), u8), u8), u8) { ((((((((a, b), c), d), e), f), g), h), a) }",
        "fn=left",
        Status::Done,
        "4Ogwww+BhgsB8zBUfMwVH2Cg+sUH1Cg+kUCcDA==\n",
    ),
    (
        "fn bent(a: u8, b: u8, c: u8, d: u8, e: u8, f: u8, g: u8, h: u8) -> ((u8, ((u8, ((u8, ((u8, u8), u8)), u8)), u8)), u8) { ((a, ((c, ((e, ((g, h), f)), d)), b)), h) }",
        "fn=bent",
        Status::Done,
        "4Ogwww9MPgen0HHCwGwOFQtI2YoFtGzFAuBBNgA=\n",
    ),
    (
        "fn f(x: u8) -> u8 { y }",
        "fn=f",
        Status::SourceRefused,
        "source K4 at 20..21\n",
    ),
    (
        "fn f(x: u8) -> (u8, u8) { (y, z) }",
        "fn=f",
        Status::SourceRefused,
        "source K4 at 27..28\n",
    ),
    (
        "fn f(x: u8) -> (u8, (u8, u8)) { (x, (other, z)) }",
        "fn=f",
        Status::SourceRefused,
        "source K4 at 37..42\n",
    ),
    (
        "fn main() {}",
        "fn=main",
        Status::SourceRefused,
        "source NotYet at 0..0\n",
    ),
    (
        "fn main(x: u8) -> u8 { x }",
        "fn=main",
        Status::SourceRefused,
        "source NotYet at 0..0\n",
    ),
    (
        "fn f(x: u8) -> u8 { x } // x",
        "fn=f",
        Status::SourceRefused,
        "source NotYet at 0..0\n",
    ),
    (
        "fn f(x: u8) -> u8 { x }",
        "fn=g",
        Status::SourceRefused,
        "source NotYet at 0..0\n",
    ),
    (
        "fn f(x: u8) -> (u8, u8) { y }",
        "fn=f",
        Status::SourceRefused,
        "source NotYet at 0..0\n",
    ),
    ("", "fn=f", Status::SourceRefused, "source NotYet at 0..0\n"),
    (
        "fn main() { # }",
        "fn=main",
        Status::SourceRefused,
        "source BadCharacter at 12..13\n",
    ),
    (
        "/* a",
        "fn=f",
        Status::SourceRefused,
        "source OpenComment at 0..4\n",
    ),
    (
        "fn f() -> u128 { 340282366920938463463374607431768211455 }",
        "fn=f",
        Status::SourceRefused,
        "source NotYet at 0..0\n",
    ),
    (
        "fn f() -> u128 { 340282366920938463463374607431768211456 }",
        "fn=f",
        Status::LimitReached,
        "limit L3\n",
    ),
    (
        "fn f(",
        "fn=f",
        Status::SourceRefused,
        "source Syntax at 5..5\n",
    ),
    (
        "fn f() { let x: u8 = 1 }",
        "fn=f",
        Status::SourceRefused,
        "source Syntax at 23..24\n",
    ),
    // A literal too large comes before what the tokens are, and the depth before the syntax.
    (
        "fn f( 340282366920938463463374607431768211456",
        "fn=f",
        Status::LimitReached,
        "limit L3\n",
    ),
    (
        "fn f() { ((((((((((((((((((((((((((((((((((((((((((((((((((((((((((((((((((((((((((((((((((((((((((((((((((((((((((((((((((((((((((((((1)))))))))))))))))))))))))))))))))))))))))))))))))))))))))))))))))))))))))))))))))))))))))))))))))))))))))))))))))))))))))))))) }",
        "fn=f",
        Status::SourceRefused,
        "source NotYet at 0..0\n",
    ),
    (
        "fn f() { (((((((((((((((((((((((((((((((((((((((((((((((((((((((((((((((((((((((((((((((((((((((((((((((((((((((((((((((((((((((((((((((1))))))))))))))))))))))))))))))))))))))))))))))))))))))))))))))))))))))))))))))))))))))))))))))))))))))))))))))))))))))))))))))) }",
        "fn=f",
        Status::LimitReached,
        "limit L2\n",
    ),
    (
        "fn f() { (((((((((((((((((((((((((((((((((((((((((((((((((((((((((((((((((((((((((((((((((((((((((((((((((((((((((((((((((((((((((((((((1))))))))))))))))))))))))))))))))))))))))))))))))))))))))))))))))))))))))))))))))))))))))))))))))))))))))))))))))))))))))))))",
        "fn=f",
        Status::LimitReached,
        "limit L2\n",
    ),
];

/// Words that are refused, and the index at which they are.
static WORDS: [(&[&str], &str); 24] = [
    (&[], "words at 0\n"),
    (&["built", "a.hl", "fn=swap"], "words at 0\n"),
    (&["build"], "words at 1\n"),
    (&["build", ""], "words at 1\n"),
    (&["build", "", "fn=swap"], "words at 1\n"),
    (&["build", "a.hl"], "words at 2\n"),
    (&["build", "a.hl", "fn="], "words at 2\n"),
    (&["build", "a.hl", "fn=1x"], "words at 2\n"),
    (&["build", "a.hl", "fn=let"], "words at 2\n"),
    (&["build", "a.hl", "name=swap"], "words at 2\n"),
    (&["build", "a.hl", "fn=swap", "more"], "words at 3\n"),
    (&["build", "a.hl", "fn=swap", ""], "words at 3\n"),
    (&["build", "a.hl", "args=p", "fn=swap"], "words at 2\n"),
    (&["eval"], "words at 1\n"),
    (&["eval", "a.hl", "fn"], "words at 2\n"),
    (&["eval", "a.hl", "fn=swap", "fn=swap"], "words at 3\n"),
    (&["eval", "a.hl", "edition=1", "edition=2"], "words at 3\n"),
    (&["eval", "a.hl", "edition=2", "edition=2"], "words at 3\n"),
    (&["eval", "a.hl", "edition=3"], "words at 2\n"),
    (&["eval", "a.hl", "edition="], "words at 2\n"),
    (&["eval", "a.hl", "wit=", "args="], "words at 2\n"),
    (&["eval", "a.hl", "input=1", "bad", "worse"], "words at 3\n"),
    (&["eval", "a.hl", "from=u8"], "words at 2\n"),
    (&["root", "a.hl", "fn=swap"], "words at 0\n"),
];

/// A source with its data files, the words after its name, the status, and the text on `out` or, of a refusal, on `err`.
struct Evaluated {
    source: &'static str,
    args: &'static str,
    witness: &'static str,
    words: &'static [&'static str],
    status: Status,
    text: &'static str,
}

/// The parameters' file is `p`, the witnesses' file `w`.
static EVALUATED: [Evaluated; 53] = [
    Evaluated {
        source: "fn f(a: u8, b: u8) -> (bool, u8) { jet::add_8(a, b) }",
        args: "",
        witness: "",
        words: &["fn=f", "input=(255, 1)"],
        status: Status::Done,
        text: "value: (true, 0)\n",
    },
    Evaluated {
        source: "fn f(a: u8, b: u8) -> (bool, u8) { jet::subtract_8(a, b) }",
        args: "",
        witness: "",
        words: &["input=(0, 1)", "fn=f"],
        status: Status::Done,
        text: "value: (true, 255)\n",
    },
    Evaluated {
        source: "fn f() -> (u8, u8) { jet::div_mod_8(7, 0) }",
        args: "",
        witness: "",
        words: &["fn=f"],
        status: Status::Done,
        text: "value: (0, 7)\n",
    },
    Evaluated {
        source: "fn f() -> u16 { jet::full_multiply_8(255, 255, 255, 255) }",
        args: "",
        witness: "",
        words: &["fn=f"],
        status: Status::Done,
        text: "value: 65535\n",
    },
    Evaluated {
        source: "fn f() -> bool { jet::divides_8(0, 5) }",
        args: "",
        witness: "",
        words: &["fn=f"],
        status: Status::Done,
        text: "value: false\n",
    },
    Evaluated {
        source: "fn f() -> bool { jet::divides_8(0, 0) }",
        args: "",
        witness: "",
        words: &["fn=f"],
        status: Status::Done,
        text: "value: true\n",
    },
    Evaluated {
        source: "fn f() -> u8 { jet::left_shift_8(8, 255) }",
        args: "",
        witness: "",
        words: &["fn=f"],
        status: Status::Done,
        text: "value: 0\n",
    },
    Evaluated {
        source: "fn f() -> u8 { jet::left_rotate_8(8, 77) }",
        args: "",
        witness: "",
        words: &["fn=f"],
        status: Status::Done,
        text: "value: 77\n",
    },
    Evaluated {
        source: "fn f() -> u8 { jet::right_shift_with_8(true, 3, 0) }",
        args: "",
        witness: "",
        words: &["fn=f"],
        status: Status::Done,
        text: "value: 224\n",
    },
    Evaluated {
        source: "fn step(x: u8, acc: u8) -> u8 { jet::xor_8(x, jet::left_shift_8(1, acc)) } fn f(l: List<u8, 4>) -> u8 { fold::<step, 4>(l, 0) }",
        args: "",
        witness: "",
        words: &["fn=f", "input=list![]"],
        status: Status::Done,
        text: "value: 0\n",
    },
    Evaluated {
        source: "fn step(x: u8, acc: u8) -> u8 { jet::xor_8(x, jet::left_shift_8(1, acc)) } fn f(l: List<u8, 4>) -> u8 { fold::<step, 4>(l, 0) }",
        args: "",
        witness: "",
        words: &["fn=f", "input=list![5, 6, 7]"],
        status: Status::Done,
        text: "value: 31\n",
    },
    Evaluated {
        source: "fn stop(acc: u16, limit: u16, i: u16) -> Either<u16, u16> { match jet::eq_16(i, limit) { true => Left(i), false => Right(i), } } fn f(limit: u16) -> Either<u16, u16> { for_while::<stop>(0, limit) }",
        args: "",
        witness: "",
        words: &["fn=f", "input=65535"],
        status: Status::Done,
        text: "value: Left(65535)\n",
    },
    Evaluated {
        source: "fn go(acc: u16, c: (), i: u16) -> Either<(), u16> { Right(i) } fn f() -> Either<(), u16> { for_while::<go>(0, ()) }",
        args: "",
        witness: "",
        words: &["fn=f"],
        status: Status::Done,
        text: "value: Right(65535)\n",
    },
    Evaluated {
        source: "fn main() { assert!(false); }",
        args: "",
        witness: "",
        words: &[],
        status: Status::ProgramFailed,
        text: "failed\n",
    },
    Evaluated {
        source: "fn add_amount(amount: u64, sum: u64) -> u64 { let (carry, total): (bool, u64) = jet::add_64(amount, sum); match carry { true => panic!(), false => total, } } fn main() { let amounts: [u64; 3] = witness::AMOUNTS; let rate: u32 = param::RATE; let sum: u64 = array_fold::<add_amount, 3>(amounts, 0); let limit: u64 = jet::multiply_32(rate, 1000); match witness::PATH { Left(code: u32) => assert!(jet::eq_32(code, 0x2a2b2c2d)), Right(none: ()) => assert!(jet::lt_64(sum, limit)), } }",
        args: "{\"RATE\": {\"value\": \"25\", \"type\": \"u32\"}}",
        witness: "{\"AMOUNTS\": {\"value\": \"[1000, 2000, 3000]\", \"type\": \"[u64; 3]\"}, \"PATH\": {\"value\": \"Right(())\", \"type\": \"Either<u32, ()>\"}, \"OLD\": {}}",
        words: &["args=p", "wit=w", "edition=1"],
        status: Status::Done,
        text: "value: ()\n",
    },
    Evaluated {
        source: "fn add_amount(amount: u64, sum: u64) -> u64 { let (carry, total): (bool, u64) = jet::add_64(amount, sum); match carry { true => panic!(), false => total, } } fn main() { let amounts: [u64; 3] = witness::AMOUNTS; let rate: u32 = param::RATE; let sum: u64 = array_fold::<add_amount, 3>(amounts, 0); let limit: u64 = jet::multiply_32(rate, 1000); match witness::PATH { Left(code: u32) => assert!(jet::eq_32(code, 0x2a2b2c2d)), Right(none: ()) => assert!(jet::lt_64(sum, limit)), } }",
        args: "{\"RATE\": {\"value\": \"25\", \"type\": \"u32\"}}",
        witness: "{\"AMOUNTS\": {\"value\": \"[1000, 2000, 3000]\", \"type\": \"[u64; 3]\"}, \"PATH\": {\"value\": \"Left(0)\", \"type\": \"Either<u32, ()>\"}, \"OLD\": {}}",
        words: &["wit=w", "args=p"],
        status: Status::ProgramFailed,
        text: "failed\n",
    },
    Evaluated {
        source: "fn main() { x }",
        args: "",
        witness: "",
        words: &[],
        status: Status::SourceRefused,
        text: "source K4 at 12..13\n",
    },
    Evaluated {
        source: "fn main() { let x: u8 = 256; }",
        args: "",
        witness: "",
        words: &[],
        status: Status::SourceRefused,
        text: "source K7 at 24..27\n",
    },
    Evaluated {
        source: "fn main() { jet::bip_0340_verify(); }",
        args: "",
        witness: "",
        words: &[],
        status: Status::SourceRefused,
        text: "source K22 at 17..32\n",
    },
    Evaluated {
        source: "fn f(x: [u64; 65536]) {}",
        args: "",
        witness: "",
        words: &["fn=f"],
        status: Status::LimitReached,
        text: "limit L5\n",
    },
    Evaluated {
        source: "fn f(x: [u8; 65537]) {}",
        args: "",
        witness: "",
        words: &["fn=f"],
        status: Status::LimitReached,
        text: "limit L4\n",
    },
    Evaluated {
        source: "fn f(",
        args: "",
        witness: "",
        words: &["fn=f"],
        status: Status::SourceRefused,
        text: "source Syntax at 5..5\n",
    },
    Evaluated {
        source: "fn f() {}",
        args: "",
        witness: "",
        words: &[],
        status: Status::SourceRefused,
        text: "source K20 at 9..9\n",
    },
    Evaluated {
        source: "fn main() { let x: (u8, u16) = witness::X; let (a, b): (u8, u16) = x; assert!(jet::eq_8(a, 7)); }",
        args: "",
        witness: "{\"X\": {\"value\": \"300\", \"type\": \"(u8, u16)\"}}",
        words: &["wit=w"],
        status: Status::DataRefused,
        text: "data BadValue X\n",
    },
    Evaluated {
        source: "fn main() { let x: (u8, u16) = witness::X; let (a, b): (u8, u16) = x; assert!(jet::eq_8(a, 7)); }",
        args: "",
        witness: "{}",
        words: &["wit=w"],
        status: Status::DataRefused,
        text: "data Missing X\n",
    },
    Evaluated {
        source: "fn main() { let x: (u8, u16) = witness::X; let (a, b): (u8, u16) = x; assert!(jet::eq_8(a, 7)); }",
        args: "",
        witness: "",
        words: &[],
        status: Status::DataRefused,
        text: "data Missing X\n",
    },
    Evaluated {
        source: "fn main() { let x: (u8, u16) = witness::X; let (a, b): (u8, u16) = x; assert!(jet::eq_8(a, 7)); }",
        args: "",
        witness: "{\"X\": {\"value\": \"300\", \"type\": \"u16\"}}",
        words: &["wit=w"],
        status: Status::DataRefused,
        text: "data TypeDiffers X\n",
    },
    Evaluated {
        source: "fn main() { let x: (u8, u16) = witness::X; let (a, b): (u8, u16) = x; assert!(jet::eq_8(a, 7)); }",
        args: "",
        witness: "{\"X\": {\"value\": \"300\", \"type\": \"Pair\"}}",
        words: &["wit=w"],
        status: Status::DataRefused,
        text: "data BadEntry X\n",
    },
    Evaluated {
        source: "fn main() { let x: (u8, u16) = witness::X; let (a, b): (u8, u16) = x; assert!(jet::eq_8(a, 7)); }",
        args: "",
        witness: "{\"X\": [1, 2]}",
        words: &["wit=w"],
        status: Status::DataRefused,
        text: "data BadEntry X\n",
    },
    Evaluated {
        source: "fn main() { let x: (u8, u16) = witness::X; let (a, b): (u8, u16) = x; assert!(jet::eq_8(a, 7)); }",
        args: "",
        witness: "{\"X\": 1, \"\\u0058\": {\"value\": \"(7, 9)\", \"type\": \" (u8, u16) // x\", \"more\": [1.5e3]}}",
        words: &["wit=w"],
        status: Status::Done,
        text: "value: ()\n",
    },
    Evaluated {
        source: "fn f(x: u8) -> u8 { let x: u8 = 9; x }",
        args: "",
        witness: "",
        words: &["fn=f", "input=4"],
        status: Status::Done,
        text: "value: 9\n",
    },
    Evaluated {
        source: "fn f(x: u8) -> u8 { let x: u8 = 9; x }",
        args: "",
        witness: "",
        words: &["fn=f"],
        status: Status::DataRefused,
        text: "data Missing input\n",
    },
    Evaluated {
        source: "fn f(x: [u8; 0]) {}",
        args: "",
        witness: "",
        words: &["fn=f"],
        status: Status::DataRefused,
        text: "data Missing input\n",
    },
    Evaluated {
        source: "fn f(x: ()) {}",
        args: "",
        witness: "",
        words: &["fn=f"],
        status: Status::Done,
        text: "value: ()\n",
    },
    Evaluated {
        source: "fn f(x: u8) -> u8 { let x: u8 = 9; x }",
        args: "",
        witness: "",
        words: &["fn=f", "input=256"],
        status: Status::DataRefused,
        text: "data NotValue input\n",
    },
    Evaluated {
        source: "fn f(x: u8) -> u8 { let x: u8 = 9; x }",
        args: "",
        witness: "",
        words: &["fn=f", "input="],
        status: Status::DataRefused,
        text: "data NotValue input\n",
    },
    Evaluated {
        source: "fn add_amount(amount: u64, sum: u64) -> u64 { let (carry, total): (bool, u64) = jet::add_64(amount, sum); match carry { true => panic!(), false => total, } } fn main() { let amounts: [u64; 3] = witness::AMOUNTS; let rate: u32 = param::RATE; let sum: u64 = array_fold::<add_amount, 3>(amounts, 0); let limit: u64 = jet::multiply_32(rate, 1000); match witness::PATH { Left(code: u32) => assert!(jet::eq_32(code, 0x2a2b2c2d)), Right(none: ()) => assert!(jet::lt_64(sum, limit)), } }",
        args: "[",
        witness: "{\"AMOUNTS\": {\"value\": \"[1000, 2000, 3000]\", \"type\": \"[u64; 3]\"}, \"PATH\": {\"value\": \"Right(())\", \"type\": \"Either<u32, ()>\"}, \"OLD\": {}}",
        words: &["args=p", "wit=w"],
        status: Status::DataRefused,
        text: "data NotJson args\n",
    },
    Evaluated {
        source: "fn add_amount(amount: u64, sum: u64) -> u64 { let (carry, total): (bool, u64) = jet::add_64(amount, sum); match carry { true => panic!(), false => total, } } fn main() { let amounts: [u64; 3] = witness::AMOUNTS; let rate: u32 = param::RATE; let sum: u64 = array_fold::<add_amount, 3>(amounts, 0); let limit: u64 = jet::multiply_32(rate, 1000); match witness::PATH { Left(code: u32) => assert!(jet::eq_32(code, 0x2a2b2c2d)), Right(none: ()) => assert!(jet::lt_64(sum, limit)), } }",
        args: "[]",
        witness: "{\"AMOUNTS\": {\"value\": \"[1000, 2000, 3000]\", \"type\": \"[u64; 3]\"}, \"PATH\": {\"value\": \"Right(())\", \"type\": \"Either<u32, ()>\"}, \"OLD\": {}}",
        words: &["args=p", "wit=w"],
        status: Status::DataRefused,
        text: "data NotJson args\n",
    },
    Evaluated {
        source: "fn add_amount(amount: u64, sum: u64) -> u64 { let (carry, total): (bool, u64) = jet::add_64(amount, sum); match carry { true => panic!(), false => total, } } fn main() { let amounts: [u64; 3] = witness::AMOUNTS; let rate: u32 = param::RATE; let sum: u64 = array_fold::<add_amount, 3>(amounts, 0); let limit: u64 = jet::multiply_32(rate, 1000); match witness::PATH { Left(code: u32) => assert!(jet::eq_32(code, 0x2a2b2c2d)), Right(none: ()) => assert!(jet::lt_64(sum, limit)), } }",
        args: "[",
        witness: "{}}",
        words: &["args=p", "wit=w"],
        status: Status::DataRefused,
        text: "data NotJson args\n",
    },
    Evaluated {
        source: "fn add_amount(amount: u64, sum: u64) -> u64 { let (carry, total): (bool, u64) = jet::add_64(amount, sum); match carry { true => panic!(), false => total, } } fn main() { let amounts: [u64; 3] = witness::AMOUNTS; let rate: u32 = param::RATE; let sum: u64 = array_fold::<add_amount, 3>(amounts, 0); let limit: u64 = jet::multiply_32(rate, 1000); match witness::PATH { Left(code: u32) => assert!(jet::eq_32(code, 0x2a2b2c2d)), Right(none: ()) => assert!(jet::lt_64(sum, limit)), } }",
        args: "{\"RATE\": {\"value\": \"25\", \"type\": \"u32\"}}",
        witness: "{}}",
        words: &["args=p", "wit=w"],
        status: Status::DataRefused,
        text: "data NotJson wit\n",
    },
    Evaluated {
        source: "fn add_amount(amount: u64, sum: u64) -> u64 { let (carry, total): (bool, u64) = jet::add_64(amount, sum); match carry { true => panic!(), false => total, } } fn main() { let amounts: [u64; 3] = witness::AMOUNTS; let rate: u32 = param::RATE; let sum: u64 = array_fold::<add_amount, 3>(amounts, 0); let limit: u64 = jet::multiply_32(rate, 1000); match witness::PATH { Left(code: u32) => assert!(jet::eq_32(code, 0x2a2b2c2d)), Right(none: ()) => assert!(jet::lt_64(sum, limit)), } }",
        args: "{\"RATE\": {\"value\": \"25\", \"type\": \"u32\"}}",
        witness: "{\"a\": 1e400}",
        words: &["args=p", "wit=w"],
        status: Status::DataRefused,
        text: "data NotJson wit\n",
    },
    Evaluated {
        source: "fn add_amount(amount: u64, sum: u64) -> u64 { let (carry, total): (bool, u64) = jet::add_64(amount, sum); match carry { true => panic!(), false => total, } } fn main() { let amounts: [u64; 3] = witness::AMOUNTS; let rate: u32 = param::RATE; let sum: u64 = array_fold::<add_amount, 3>(amounts, 0); let limit: u64 = jet::multiply_32(rate, 1000); match witness::PATH { Left(code: u32) => assert!(jet::eq_32(code, 0x2a2b2c2d)), Right(none: ()) => assert!(jet::lt_64(sum, limit)), } }",
        args: "",
        witness: "{\"AMOUNTS\": {\"value\": \"[1000, 2000, 3000]\", \"type\": \"[u64; 3]\"}, \"PATH\": {\"value\": \"Right(())\", \"type\": \"Either<u32, ()>\"}, \"OLD\": {}}",
        words: &["wit=w"],
        status: Status::SourceRefused,
        text: "source K18 at 235..239\n",
    },
    Evaluated {
        source: "fn add_amount(amount: u64, sum: u64) -> u64 { let (carry, total): (bool, u64) = jet::add_64(amount, sum); match carry { true => panic!(), false => total, } } fn main() { let amounts: [u64; 3] = witness::AMOUNTS; let rate: u32 = param::RATE; let sum: u64 = array_fold::<add_amount, 3>(amounts, 0); let limit: u64 = jet::multiply_32(rate, 1000); match witness::PATH { Left(code: u32) => assert!(jet::eq_32(code, 0x2a2b2c2d)), Right(none: ()) => assert!(jet::lt_64(sum, limit)), } }",
        args: "{\"RATE\": {\"value\": \"25\", \"type\": \"u16\"}}",
        witness: "{}}",
        words: &["args=p", "wit=w"],
        status: Status::SourceRefused,
        text: "source K19 at 235..239\n",
    },
    Evaluated {
        source: "fn add_amount(amount: u64, sum: u64) -> u64 { let (carry, total): (bool, u64) = jet::add_64(amount, sum); match carry { true => panic!(), false => total, } } fn main() { let amounts: [u64; 3] = witness::AMOUNTS; let rate: u32 = param::RATE; let sum: u64 = array_fold::<add_amount, 3>(amounts, 0); let limit: u64 = jet::multiply_32(rate, 1000); match witness::PATH { Left(code: u32) => assert!(jet::eq_32(code, 0x2a2b2c2d)), Right(none: ()) => assert!(jet::lt_64(sum, limit)), } }",
        args: "{\"RATE\": {\"value\": \"25\"}}",
        witness: "{\"AMOUNTS\": {\"value\": \"[1000, 2000, 3000]\", \"type\": \"[u64; 3]\"}, \"PATH\": {\"value\": \"Right(())\", \"type\": \"Either<u32, ()>\"}, \"OLD\": {}}",
        words: &["args=p", "wit=w"],
        status: Status::DataRefused,
        text: "data BadEntry RATE\n",
    },
    Evaluated {
        source: "fn add_amount(amount: u64, sum: u64) -> u64 { let (carry, total): (bool, u64) = jet::add_64(amount, sum); match carry { true => panic!(), false => total, } } fn main() { let amounts: [u64; 3] = witness::AMOUNTS; let rate: u32 = param::RATE; let sum: u64 = array_fold::<add_amount, 3>(amounts, 0); let limit: u64 = jet::multiply_32(rate, 1000); match witness::PATH { Left(code: u32) => assert!(jet::eq_32(code, 0x2a2b2c2d)), Right(none: ()) => assert!(jet::lt_64(sum, limit)), } }",
        args: "{\"RATE\": {\"value\": \"(\", \"type\": \"u32\"}}",
        witness: "{\"AMOUNTS\": {\"value\": \"[1000, 2000, 3000]\", \"type\": \"[u64; 3]\"}, \"PATH\": {\"value\": \"Right(())\", \"type\": \"Either<u32, ()>\"}, \"OLD\": {}}",
        words: &["args=p", "wit=w"],
        status: Status::DataRefused,
        text: "data BadValue RATE\n",
    },
    Evaluated {
        source: "fn add_amount(amount: u64, sum: u64) -> u64 { let (carry, total): (bool, u64) = jet::add_64(amount, sum); match carry { true => panic!(), false => total, } } fn main() { let amounts: [u64; 3] = witness::AMOUNTS; let rate: u32 = param::RATE; let sum: u64 = array_fold::<add_amount, 3>(amounts, 0); let limit: u64 = jet::multiply_32(rate, 1000); match witness::PATH { Left(code: u32) => assert!(jet::eq_32(code, 0x2a2b2c2d)), Right(none: ()) => assert!(jet::lt_64(sum, limit)), } }",
        args: "{\"RATE\": {\"value\": \"25\", \"type\": \"u32\"}}",
        witness: "{\"AMOUNTS\": {\"value\": \"[1, 2, 3]\", \"type\": \"[u64; 3]\"}}",
        words: &["args=p", "wit=w"],
        status: Status::DataRefused,
        text: "data Missing PATH\n",
    },
    Evaluated {
        source: "fn f() -> u8 { 5 }",
        args: "",
        witness: "7",
        words: &["fn=f", "wit=w"],
        status: Status::DataRefused,
        text: "data NotJson wit\n",
    },
    Evaluated {
        source: "fn f() -> u8 { 5 }",
        args: "\\",
        witness: "",
        words: &["fn=f", "args=p"],
        status: Status::DataRefused,
        text: "data NotJson args\n",
    },
    Evaluated {
        source: "fn f() -> u8 { 5 } fn main() { assert!(witness::X); }",
        args: "",
        witness: "",
        words: &["fn=f"],
        status: Status::Done,
        text: "value: 5\n",
    },
    // A witness that stands twice: in edition 2 as one value.
    Evaluated {
        source: "fn main() { assert!(jet::eq_8(witness::X, 7)); assert!(jet::eq_8(witness::X, 7)); }",
        args: "",
        witness: "{\"X\": {\"value\": \"7\", \"type\": \"u8\"}}",
        words: &["wit=w"],
        status: Status::SourceRefused,
        text: "source K17 at 74..75\n",
    },
    Evaluated {
        source: "fn main() { assert!(jet::eq_8(witness::X, 7)); assert!(jet::eq_8(witness::X, 7)); }",
        args: "",
        witness: "{\"X\": {\"value\": \"7\", \"type\": \"u8\"}}",
        words: &["wit=w", "edition=2"],
        status: Status::Done,
        text: "value: ()\n",
    },
    Evaluated {
        source: "fn main() { assert!(jet::eq_8(witness::X, 7)); assert!(jet::eq_8(witness::X, 7)); }",
        args: "",
        witness: "{\"X\": {\"value\": \"8\", \"type\": \"u8\"}}",
        words: &["edition=2", "wit=w"],
        status: Status::ProgramFailed,
        text: "failed\n",
    },
    Evaluated {
        source: "fn main() { let a: u8 = witness::X; let b: u16 = witness::X; }",
        args: "",
        witness: "",
        words: &["edition=2"],
        status: Status::SourceRefused,
        text: "source K17 at 58..59\n",
    },
];

/// How many bytes of its first piece each sink keeps, where it is to fail.
#[derive(Clone, Copy, Debug)]
struct Faults {
    out: Option<usize>,
    err: Option<usize>,
}

const NO_FAULTS: Faults = Faults {
    out: None,
    err: None,
};

/// How a command ended, and the sinks after it.
#[derive(Drop)]
struct Ended {
    status: Status,
    out: MemorySink,
    err: MemorySink,
}

/// A sink that fails at its first piece where it is told how many bytes to keep.
fn sink(alloc: Global, fault: Option<usize>) -> Result<MemorySink, AllocError> {
    let mut sink = MemorySink::new(alloc, ROOM)?;
    if let Some(kept) = fault {
        sink.fail_at(1, kept)?;
    }
    Ok(sink)
}

/// Runs a command.
fn run(
    alloc: Global,
    words: &[&str],
    files: &mut MemoryFiles,
    faults: Faults,
) -> Result<Ended, AllocError> {
    let mut texts = Vec::new(alloc);
    for word in words {
        texts.push(String::from_str(alloc, word)?)?;
    }
    let mut out = sink(alloc, faults.out)?;
    let mut err = sink(alloc, faults.err)?;
    let status = simphl(alloc, texts.as_slice(), files, &mut out, &mut err);
    Ok(Ended { status, out, err })
}

#[test]
fn answers_each_source(rt: HostRuntime) -> Result<(), Fail> {
    let alloc = rt.alloc();
    for (source, word, wanted, text) in SOURCES.iter() {
        let mut files = MemoryFiles::new(alloc);
        files.hold("a.hl", source.as_bytes())?;
        let ended = run(alloc, &["build", "a.hl", word], &mut files, NO_FAULTS)?;
        assert_eq!(rt; ended.status, *wanted, "at {source}");
        let (on_out, on_err) = match ended.status {
            Status::Done => (*text, ""),
            _ => ("", *text),
        };
        assert_eq!(rt; ended.out.bytes(), on_out.as_bytes(), "at {source}");
        assert_eq!(rt; ended.err.bytes(), on_err.as_bytes(), "at {source}");
    }
    Ok(())
}

#[test]
fn evaluates_each_source(rt: HostRuntime) -> Result<(), Fail> {
    let alloc = rt.alloc();
    for row in EVALUATED.iter() {
        let source = row.source;
        let mut files = MemoryFiles::new(alloc);
        files.hold("a.hl", source.as_bytes())?;
        files.hold("p", row.args.as_bytes())?;
        files.hold("w", row.witness.as_bytes())?;
        let mut words = vec![in alloc; "eval", "a.hl"]?;
        for word in row.words {
            words.push(*word)?;
        }
        let ended = run(alloc, words.as_slice(), &mut files, NO_FAULTS)?;
        assert_eq!(rt; ended.status, row.status, "at {source}");
        let (on_out, on_err) = match ended.status {
            Status::Done => (row.text, ""),
            _ => ("", row.text),
        };
        assert_eq!(rt; ended.out.bytes(), on_out.as_bytes(), "at {source}");
        assert_eq!(rt; ended.err.bytes(), on_err.as_bytes(), "at {source}");
    }
    Ok(())
}

/// The words of the data files, the status, and the text on `err`.
static DATA_FILES: [(&str, &str, Status, &str); 7] = [
    ("args=long", "wit=none", Status::LimitReached, "limit L10\n"),
    ("wit=none", "args=long", Status::LimitReached, "limit L10\n"),
    (
        "args=empty",
        "wit=long",
        Status::LimitReached,
        "limit L10\n",
    ),
    ("args=none", "wit=long", Status::ReadFault, "read none\n"),
    ("args=empty", "wit=none", Status::ReadFault, "read none\n"),
    (
        "args=full",
        "wit=empty",
        Status::DataRefused,
        "data NotJson args\n",
    ),
    ("wit=empty", "args=empty", Status::ReadFault, "read empty\n"),
];

#[test]
fn reads_data_files_in_order(rt: HostRuntime) -> Result<(), Fail> {
    let alloc = rt.alloc();
    let blanks = vec![in alloc; b' '; MOST_DATA + 1]?;
    let mut files = MemoryFiles::new(alloc);
    files.hold("a.hl", b"fn main() {}")?;
    files.hold("long", blanks.as_slice())?;
    files.hold("full", &blanks[1..])?;
    files.hold("empty", b"{}")?;
    // The second file of the last row.
    files.fail_at(17)?;
    for (first, second, wanted, on_err) in DATA_FILES.iter() {
        let words = ["eval", "a.hl", first, second];
        let ended = run(alloc, words.as_slice(), &mut files, NO_FAULTS)?;
        assert_eq!(rt; ended.status, *wanted, "{first} {second}");
        assert!(rt; ended.out.bytes().is_empty(), "{first} {second}");
        assert_eq!(rt; ended.err.bytes(), on_err.as_bytes(), "{first} {second}");
    }
    Ok(())
}

#[test]
fn answers_each_file(rt: HostRuntime) -> Result<(), Fail> {
    let alloc = rt.alloc();
    let blanks = vec![in alloc; b' '; MOST_SOURCE + 1]?;
    let mut files = MemoryFiles::new(alloc);
    files.hold("a.hl", SWAP.as_bytes())?;
    files.hold("long.hl", blanks.as_slice())?;
    files.hold("full.hl", &blanks[1..])?;
    files.hold("bytes.hl", b"fn f\xFF")?;
    files.fail_at(4)?;
    let rows = [
        ("other.hl", Status::ReadFault, "", "read other.hl\n"),
        ("long.hl", Status::LimitReached, "", "limit L1\n"),
        (
            "full.hl",
            Status::SourceRefused,
            "",
            "source NotYet at 0..0\n",
        ),
        ("a.hl", Status::ReadFault, "", "read a.hl\n"),
        ("a.hl", Status::Done, "wQcaCgA=\n", ""),
        (
            "bytes.hl",
            Status::SourceRefused,
            "",
            "source NotUtf8 at 4..5\n",
        ),
    ];
    for (name, wanted, on_out, on_err) in rows {
        let ended = run(alloc, &["build", name, "fn=swap"], &mut files, NO_FAULTS)?;
        assert_eq!(rt; ended.status, wanted, "at {name}");
        assert_eq!(rt; ended.out.bytes(), on_out.as_bytes(), "at {name}");
        assert_eq!(rt; ended.err.bytes(), on_err.as_bytes(), "at {name}");
    }
    Ok(())
}

#[test]
fn refuses_words(rt: HostRuntime) -> Result<(), Fail> {
    let alloc = rt.alloc();
    for (words, text) in WORDS.iter() {
        // A read would be answered as a fault.
        let mut files = MemoryFiles::new(alloc);
        files.hold("a.hl", SWAP.as_bytes())?;
        files.fail_at(1)?;
        let ended = run(alloc, words, &mut files, NO_FAULTS)?;
        assert_eq!(rt; ended.status, Status::WordsRefused, "{words:?}");
        assert!(rt; ended.out.bytes().is_empty(), "{words:?}");
        assert_eq!(rt; ended.err.bytes(), text.as_bytes(), "{words:?}");
    }
    Ok(())
}

#[test]
fn tells_a_failed_write(rt: HostRuntime) -> Result<(), Fail> {
    let alloc = rt.alloc();
    let mut files = MemoryFiles::new(alloc);
    files.hold("swap.hl", SWAP.as_bytes())?;
    files.hold("unknown.hl", b"fn swap(x: u8) -> u8 { y }")?;
    let out = Some(2);
    let rows = [
        (
            "swap.hl",
            Faults { out, err: None },
            Status::WriteFault,
            "wQ",
            "write\n",
        ),
        (
            "swap.hl",
            Faults { out, err: Some(3) },
            Status::WriteFault,
            "wQ",
            "wri",
        ),
        (
            "unknown.hl",
            Faults { out, err: Some(4) },
            Status::WriteFault,
            "",
            "sour",
        ),
        (
            "swap.hl",
            Faults {
                out: None,
                err: Some(0),
            },
            Status::Done,
            "wQcaCgA=\n",
            "",
        ),
        (
            "other.hl",
            Faults { out, err: None },
            Status::ReadFault,
            "",
            "read other.hl\n",
        ),
    ];
    for (name, faults, wanted, on_out, on_err) in rows {
        let ended = run(alloc, &["build", name, "fn=swap"], &mut files, faults)?;
        assert_eq!(rt; ended.status, wanted, "{name} {faults:?}");
        assert_eq!(rt; ended.out.bytes(), on_out.as_bytes(), "{name} {faults:?}");
        assert_eq!(rt; ended.err.bytes(), on_err.as_bytes(), "{name} {faults:?}");
    }
    Ok(())
}

#[test]
fn numbers_each_status(rt: HostRuntime) {
    let statuses = [
        Status::Done,
        Status::SourceRefused,
        Status::WordsRefused,
        Status::ProgramFailed,
        Status::ReadFault,
        Status::WriteFault,
        Status::NoMemory,
        Status::BitsRefused,
        Status::DataRefused,
        Status::LimitReached,
    ];
    for (number, status) in statuses.iter().enumerate() {
        assert_eq!(rt; status.number() as usize, number, "{status:?}");
    }
}
