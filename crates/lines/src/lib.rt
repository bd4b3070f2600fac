// Reads the text lines of our programs, and writes their numbers and hexadecimal. All is over bytes, and any bytes may come in.
// Promises what specs/Lines.antt says of words, parts, numbers and hexadecimal; leans on std and on the kit's itoa.
#![tactic(auto)]

ghost use Rattle.std.specs.Prelude.{◌≡◌, ◌+◌, ◌*◌, ◌%◌, ◌<◌, ◌≤◌, ◌++◌, length, IfSome, IfOk, Some, None, vec_items, vec_len, vec_capacity, OnErr, OnOk, if◌then◌else◌, nat_lt};
ghost use Rattle.lines.specs.Lines.{Cut, First, word_and_rest, space, colon};
ghost use Rattle.lines.specs.Lines.{decimal, number_read, decimal_written};
ghost use Rattle.lines.specs.Lines.{hex_digit, hex_pair, hex_read, hex_read_exact, hex_code, hex_written};
ghost use Rattle.lines.specs.Lines.{PartsComeApart, FirstThenRest, WordsStand, NumberReadsBack, HexReadsBack};
ghost use Rattle.std.specs.Option.{option_map};
ghost use Rattle.std.specs.List.{concat};

use std::alloc::{AllocError, Global};

// Why a word is not read as a number.
#[derive(Clone, Copy, Debug, PartialEq, Eq)]
pub enum NumberFault {
    NotANumber,
    TooLarge,
}

// A text up to the byte that was looked for, and what follows that byte where it was found.
#[derive(Clone, Copy)]
pub struct Part<'a> {
    pub text: &'a [u8],
    pub rest: Option<&'a [u8]>,
}

// The first word of a line, and what follows it.
#[derive(Clone, Copy)]
pub struct Word<'a> {
    pub text: &'a [u8],
    pub rest: &'a [u8],
}

// A text up to its first `b`, and what follows that: a line of a text, or a line without its comment.
pub fn part_at(text: &[u8], b: u8) -> Part<'_>
    ensures { Cut b text.now result.text.now (option_map (λ x. x.now) result.rest) }
{
    match text.iter().position(|x| *x == b) {
        Some(at) => Part {
            text: &text[..at],
            rest: Some(&text[at + 1..]),
        },
        None => Part { text, rest: None },
    }
}

// The first part of a word at its colons, and what follows that colon.
pub fn next_part(word: &[u8]) -> Part<'_>
    ensures { Cut colon word.now result.text.now (option_map (λ x. x.now) result.rest) }
{
    part_at(word, b':')
}

// The first word of a line, and what follows it.
pub fn next_word(line: &[u8]) -> Option<Word<'_>>
    ensures { First line.now (option_map word_and_rest result) }
{
    let start = line.iter().position(|x| *x != b' ')?;
    let found = part_at(&line[start..], b' ');
    Some(Word {
        text: found.text,
        rest: found.rest.unwrap_or(&[]),
    })
}

const LARGEST: u64 = 4_294_967_295;

// The number that a word writes in decimal digits. In one pass: `from_utf8` and `parse` go over each word again, at two to three
// times the cost, and over the whole of one that begins with no digit.
pub fn number(word: &[u8]) -> Result<u32, NumberFault>
    ensures { result ≡ number_read word.now }
{
    if word.is_empty() {
        return Err(NumberFault::NotANumber);
    }
    let mut value = 0;
    for b in word {
        if !b.is_ascii_digit() {
            return Err(NumberFault::NotANumber);
        }
        // What is too large stays so.
        value = (value * 10 + (*b - b'0') as u64).min(LARGEST + 1);
    }
    if value > LARGEST {
        return Err(NumberFault::TooLarge);
    }
    Ok(value as u32)
}

// The values of the bytes from '0' to 'f' as digits, with 16 for a byte that is none; the rows begin at '0', 'A' and 'a'.
#[rattlefmt::skip]
const DIGIT_VALUES: [u8; 55] = [
    0, 1, 2, 3, 4, 5, 6, 7, 8, 9, 16, 16, 16, 16, 16, 16, 16,
    10, 11, 12, 13, 14, 15, 16, 16, 16, 16, 16, 16, 16, 16, 16, 16, 16, 16, 16, 16, 16, 16, 16, 16, 16, 16, 16, 16, 16, 16, 16, 16,
    10, 11, 12, 13, 14, 15,
];

// The value of a hexadecimal digit, or 16. By a table, since 200,000 words of 64 digits take 20 ms so, and 140 ms by a match.
fn hex_value(b: u8) -> u8
    ensures { hex_digit b ≡ (if nat_lt result 16 then Some result else None) }
{
    if b < b'0' || b > b'f' {
        return 16;
    }
    DIGIT_VALUES[(b - b'0') as usize]
}

// The value of a hexadecimal digit.
pub fn hex_digit(b: u8) -> Option<u8>
    ensures value { result ≡ hex_digit b }
    ensures small { IfSome result (λ d. d < 16) }
{
    let value = hex_value(b);
    if value < 16 { Some(value) } else { None }
}

// The byte of two digits.
fn hex_byte(high: u8, low: u8) -> Option<u8>
    ensures { result ≡ hex_pair (hex_digit high) (hex_digit low) }
{
    let h = hex_digit(high)?;
    let l = hex_digit(low)?;
    Some(h * 16 + l)
}

// Writes the bytes that pairs of digits stand for.
fn hex_into(pairs: &[[u8; 2]], out: &mut [u8]) -> Option<()>
    requires { length pairs.now ≡ length out.old }
    ensures len { length out.new ≡ length out.old }
    ensures value { option_map (λ _. out.new) result ≡ hex_read (concat pairs.now) }
{
    for (i, pair) in pairs.iter().enumerate() {
        out[i] = hex_byte(pair[0], pair[1])?;
    }
    Some(())
}

// The N bytes of exactly 2 N digits.
pub fn hex_array<const N: usize>(word: &[u8]) -> Option<[u8; N]>
    ensures value { result ≡ hex_read_exact N word.now }
    ensures len { IfSome result (λ a. length a ≡ N) }
{
    let (pairs, left_over) = word.as_chunks();
    if pairs.len() != N || !left_over.is_empty() {
        return None;
    }
    let mut out = [0; N];
    hex_into(pairs, &mut out)?;
    Some(out)
}

// The bytes that a word of hexadecimal digits writes; None where it is no such word.
pub fn hex_bytes(heap: Global, word: &[u8]) -> Result<Option<Vec<u8>>, AllocError>
    ensures { IfOk result (λ o. option_map vec_items o ≡ hex_read word.now) }
{
    let (pairs, left_over) = word.as_chunks::<2>();
    if !left_over.is_empty() {
        return Ok(None);
    }
    let mut out = Vec::with_capacity(heap, pairs.len())?;
    for pair in pairs {
        let Some(b) = hex_byte(pair[0], pair[1]) else {
            return Ok(None);
        };
        out.push_reserved(b);
    }
    Ok(Some(out))
}

// The digit of a value below 16.
fn hex_code(d: u8) -> u8
    requires { d < 16 }
    ensures { result ≡ hex_code d }
{
    if d < 10 { b'0' + d } else { b'a' + (d - 10) }
}

// Appends the digits of the bytes, for which there is room.
fn put_hex(out: &mut Vec<u8>, bytes: &[u8])
    requires { vec_len out.old + 2 * length bytes.now ≤ vec_capacity out.old }
    ensures { out.new.items ≡ out.old.items ++ hex_written bytes.now }
{
    for b in bytes {
        out.push_reserved(hex_code(*b / 16));
        out.push_reserved(hex_code(*b % 16));
    }
}

// Appends the hexadecimal digits of the bytes. Where there is no memory for all of them it appends none.
pub fn push_hex(out: &mut Vec<u8>, bytes: &[u8]) -> Result<(), AllocError>
    ensures written { OnOk result (out.new.items ≡ out.old.items ++ hex_written bytes.now) }
    ensures unwritten { OnErr result (out.new.items ≡ out.old.items) }
{
    out.reserve(2 * bytes.len())?;
    put_hex(out, bytes);
    Ok(())
}

// Appends the decimal digits of `n`. Where there is no memory for all of them it appends none.
pub fn push_number(out: &mut Vec<u8>, n: u32) -> Result<(), AllocError>
    ensures written { OnOk result (out.new.items ≡ out.old.items ++ decimal_written n) }
    ensures unwritten { OnErr result (out.new.items ≡ out.old.items) }
{
    out.extend_from_slice(itoa::Buffer::new().format(n).as_bytes())?;
    Ok(())
}

// Words without a byte, with that byte between them, come apart at it into those words.
pub fn parts_come_apart()
    ensures { PartsComeApart }
{}

// The words of a line are its first word and the words of what follows that.
pub fn first_then_rest()
    ensures { FirstThenRest }
{}

// A word is not empty and holds no space.
pub fn words_stand()
    ensures { WordsStand }
{}

// A written number reads back.
pub fn number_reads_back()
    ensures { NumberReadsBack }
{}

// Written hexadecimal reads back.
pub fn hex_reads_back()
    ensures { HexReadsBack }
{}
