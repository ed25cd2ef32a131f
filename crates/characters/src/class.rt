// The classes of a byte, by one table (01, Characters).
ghost use Rattle.std.specs.Prelude.{◌≡◌};
ghost use Rattle.characters.specs.Class.{Classes, ClassTable, is_line_end, is_blank, is_letter, is_digit, is_hex_digit, is_always_kept};
ghost use Rattle.characters.specs.Class.{is_whitespace_byte, is_ascii_whitespace};
ghost use Rattle.characters.specs.Shortcuts.{RulesOut, Tells, may_end_line, may_be_whitespace};

// ---- the classes: a bit for each and no enum, since a byte has several at once, and one look into the table tells them all

const LINE_END: u8 = 1;

const BLANK: u8 = 2;

const OTHER_WHITESPACE: u8 = 4;

const LETTER: u8 = 8;

const DIGIT: u8 = 16;

const HEX_DIGIT: u8 = 32;

const META_CHARACTER: u8 = 64;

const ESCAPE_LETTER: u8 = 128;

// The classes of each byte: one const table, which 01 names as the form.
pub const CLASS: [u8; 256] = [
    0,
    0,
    0,
    0,
    0,
    0,
    0,
    0,
    0,
    BLANK, // tab
    LINE_END, // line feed
    LINE_END, // vertical tab
    OTHER_WHITESPACE, // form feed
    LINE_END, // carriage return
    0,
    0,
    0,
    0,
    0,
    0,
    0,
    0,
    0,
    0,
    0,
    0,
    0,
    0,
    0,
    0,
    0,
    0,
    BLANK, // space
    0, // !
    0, // "
    META_CHARACTER, // #
    META_CHARACTER, // $
    0, // %
    META_CHARACTER, // &
    0, // '
    META_CHARACTER, // (
    META_CHARACTER, // )
    META_CHARACTER, // *
    META_CHARACTER, // +
    0, // ,
    META_CHARACTER, // -
    META_CHARACTER, // .
    0, // /
    DIGIT | HEX_DIGIT, // 0
    DIGIT | HEX_DIGIT, // 1
    DIGIT | HEX_DIGIT, // 2
    DIGIT | HEX_DIGIT, // 3
    DIGIT | HEX_DIGIT, // 4
    DIGIT | HEX_DIGIT, // 5
    DIGIT | HEX_DIGIT, // 6
    DIGIT | HEX_DIGIT, // 7
    DIGIT | HEX_DIGIT, // 8
    DIGIT | HEX_DIGIT, // 9
    0, // :
    0, // ;
    0, // <
    0, // =
    0, // >
    META_CHARACTER, // ?
    0, // @
    LETTER | HEX_DIGIT | ESCAPE_LETTER, // A
    LETTER | HEX_DIGIT, // B
    LETTER | HEX_DIGIT, // C
    LETTER | HEX_DIGIT | ESCAPE_LETTER, // D
    LETTER | HEX_DIGIT, // E
    LETTER | HEX_DIGIT, // F
    LETTER, // G
    LETTER, // H
    LETTER, // I
    LETTER, // J
    LETTER, // K
    LETTER, // L
    LETTER, // M
    LETTER, // N
    LETTER, // O
    LETTER | ESCAPE_LETTER, // P
    LETTER, // Q
    LETTER, // R
    LETTER | ESCAPE_LETTER, // S
    LETTER, // T
    LETTER, // U
    LETTER, // V
    LETTER | ESCAPE_LETTER, // W
    LETTER, // X
    LETTER, // Y
    LETTER, // Z
    META_CHARACTER, // [
    META_CHARACTER, // \
    META_CHARACTER, // ]
    META_CHARACTER, // ^
    0, // _
    0, // `
    LETTER | HEX_DIGIT | ESCAPE_LETTER, // a
    LETTER | HEX_DIGIT, // b
    LETTER | HEX_DIGIT, // c
    LETTER | HEX_DIGIT | ESCAPE_LETTER, // d
    LETTER | HEX_DIGIT, // e
    LETTER | HEX_DIGIT | ESCAPE_LETTER, // f
    LETTER, // g
    LETTER, // h
    LETTER, // i
    LETTER, // j
    LETTER, // k
    LETTER, // l
    LETTER, // m
    LETTER | ESCAPE_LETTER, // n
    LETTER, // o
    LETTER | ESCAPE_LETTER, // p
    LETTER, // q
    LETTER | ESCAPE_LETTER, // r
    LETTER | ESCAPE_LETTER, // s
    LETTER | ESCAPE_LETTER, // t
    LETTER, // u
    LETTER | ESCAPE_LETTER, // v
    LETTER | ESCAPE_LETTER, // w
    LETTER, // x
    LETTER, // y
    LETTER | ESCAPE_LETTER, // z
    META_CHARACTER, // {
    META_CHARACTER, // |
    META_CHARACTER, // }
    META_CHARACTER, // ~
    0, // delete; and no byte of 0x80 or more has a class
    0,
    0,
    0,
    0,
    0,
    0,
    0,
    0,
    0,
    0,
    0,
    0,
    0,
    0,
    0,
    0,
    0,
    0,
    0,
    0,
    0,
    0,
    0,
    0,
    0,
    0,
    0,
    0,
    0,
    0,
    0,
    0,
    0,
    0,
    0,
    0,
    0,
    0,
    0,
    0,
    0,
    0,
    0,
    0,
    0,
    0,
    0,
    0,
    0,
    0,
    0,
    0,
    0,
    0,
    0,
    0,
    0,
    0,
    0,
    0,
    0,
    0,
    0,
    0,
    0,
    0,
    0,
    0,
    0,
    0,
    0,
    0,
    0,
    0,
    0,
    0,
    0,
    0,
    0,
    0,
    0,
    0,
    0,
    0,
    0,
    0,
    0,
    0,
    0,
    0,
    0,
    0,
    0,
    0,
    0,
    0,
    0,
    0,
    0,
    0,
    0,
    0,
    0,
    0,
    0,
    0,
    0,
    0,
    0,
    0,
    0,
    0,
    0,
    0,
    0,
    0,
    0,
    0,
    0,
    0,
    0,
    0,
    0,
    0,
    0,
    0,
    0,
    0,
];

// A constant array has no place of its own, which a `static` would have: each look into it lays it out anew on the stack. A byte of 128 or more has
// no class, and is told before the table is looked into.
pub fn class(b: u8) -> u8
    ensures { Classes b result }
{
    if 0x80 <= b {
        return 0;
    }
    CLASS[b as usize]
}

// ---- quick tests: they settle most bytes without a look into the table, which is asked about all others

// Line feed.
fn is_common_line_end(b: u8) -> bool
    ensures { Tells (is_line_end b) result }
{
    b == 0x0a
}

// Space.
fn is_common_blank(b: u8) -> bool
    ensures { Tells (is_blank b) result }
{
    b == 0x20
}

fn may_be_line_end(b: u8) -> bool
    ensures { RulesOut (is_line_end b) result }
{
    b < 0x0e
}

// Whether a line end may start with the byte.
pub fn may_end_line(b: u8) -> bool
    ensures { RulesOut (may_end_line b) result }
{
    may_be_line_end(b) | (0x80 <= b)
}

// Whether a whitespace character may have the byte.
pub fn may_be_whitespace(b: u8) -> bool
    ensures { RulesOut (may_be_whitespace b) result }
{
    (b <= 0x20) | (0x80 <= b)
}

pub fn may_be_blank(b: u8) -> bool
    ensures { RulesOut (is_blank b) result }
{
    b <= 0x20
}

// ---- the classes, each by the table and not by the library's `is_ascii_..`: 01 has every scanner go by it

pub fn is_line_end(b: u8) -> bool
    ensures { result ≡ is_line_end b }
{
    if is_common_line_end(b) {
        return true;
    }
    if !may_be_line_end(b) {
        return false;
    }
    class(b) & LINE_END != 0
}

pub fn is_blank(b: u8) -> bool
    ensures { result ≡ is_blank b }
{
    if !may_be_blank(b) {
        return false;
    }
    if is_common_blank(b) {
        return true;
    }
    class(b) & BLANK != 0
}

pub fn is_letter(b: u8) -> bool
    ensures { result ≡ is_letter b }
{
    class(b) & LETTER != 0
}

pub fn is_digit(b: u8) -> bool
    ensures { result ≡ is_digit b }
{
    class(b) & DIGIT != 0
}

pub fn is_hex_digit(b: u8) -> bool
    ensures { result ≡ is_hex_digit b }
{
    class(b) & HEX_DIGIT != 0
}

// Whether an escape of the byte stays whatever follows: one look for three classes. The table is lent, so that a loop over escapes lays it out
// once.
pub fn is_always_kept_in(classes: &[u8; 256], b: u8) -> bool
    requires { ClassTable classes.now }
    ensures { result ≡ is_always_kept b }
{
    let mask = classes[b as usize];
    (mask & META_CHARACTER != 0) | ((mask & DIGIT != 0) | (mask & ESCAPE_LETTER != 0))
}

// Whether a byte is a whitespace character by itself.
#[tactic(auto, using(crate::proofs::Shortcuts::settling))]
pub fn is_whitespace_byte(b: u8) -> bool
    ensures { result ≡ is_whitespace_byte b }
{
    if !may_be_whitespace(b) {
        return false;
    }
    if is_common_blank(b) | is_common_line_end(b) {
        return true;
    }
    let mask = class(b);
    (mask & LINE_END != 0) | ((mask & BLANK != 0) | (mask & OTHER_WHITESPACE != 0))
}

// ---- not a class of its own: the library's test

// What `split_ascii_whitespace` splits at: vertical tab is not in it.
#[tactic(auto, using(crate::proofs::Shortcuts::ascii_whitespace_tested))]
pub fn is_ascii_whitespace(b: u8) -> bool
    ensures { result ≡ is_ascii_whitespace b }
{
    b.is_ascii_whitespace()
}
