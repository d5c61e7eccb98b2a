//! What one line says by itself: its keyword, and the bytes of its fields.

ghost use Rattle.std.specs.Prelude.{◌≡◌, ◌&&◌, ◌∷◌, [], List, ℕ};
ghost use Rattle.std.specs.List.{list_all};
ghost use Rattle.std.specs.Char.{is_ascii_alphabetic};
ghost use Rattle.std.specs.Str.{bytes_eq, str_to_ascii_lowercase};
ghost use Rattle.vdv451_text.specs.Lines.{is_one_of, header_words, keyword_of as keyword_by_definition, line_of, says};
ghost use Rattle.vdv451_text.specs.LineView.{said};

use crate::fields::past_blanks;

/// The keywords. Those of the header lines are one, and those that VDV 451 does not have are one.
#[derive(Clone, Copy)]
pub enum Keyword {
    Com,
    Header,
    Tbl,
    Atr,
    Frm,
    Rec,
    End,
    Eof,
    Unknown,
}

/// What a line says. Behind a keyword stand the bytes after its `;`, where it has one.
#[derive(Clone, Copy)]
pub enum Line<'a> {
    Blank,
    Says(Keyword, Option<&'a [u8]>),
    NoKeyword,
}

fn is_word(word: &[u8], keyword: &[u8]) -> bool
    ensures { result ≡ bytes_eq word.now keyword.now }
{
    word == keyword
}

fn is_header_word(word: &[u8]) -> bool
    ensures { result ≡ is_one_of word.now header_words }
{
    is_word(word, b"mod")
        || (is_word(word, b"src")
            || (is_word(word, b"chs")
                || (is_word(word, b"ver")
                    || (is_word(word, b"ifv")
                        || (is_word(word, b"dve") || is_word(word, b"fft"))))))
}

/// The keyword of three letters in small.
fn keyword_of(word: &[u8]) -> Keyword
    ensures { result ≡ keyword_by_definition word.now }
{
    if is_word(word, b"com") {
        Keyword::Com
    } else if is_header_word(word) {
        Keyword::Header
    } else if is_word(word, b"tbl") {
        Keyword::Tbl
    } else if is_word(word, b"atr") {
        Keyword::Atr
    } else if is_word(word, b"frm") {
        Keyword::Frm
    } else if is_word(word, b"rec") {
        Keyword::Rec
    } else if is_word(word, b"end") {
        Keyword::End
    } else if is_word(word, b"eof") {
        Keyword::Eof
    } else {
        Keyword::Unknown
    }
}

/// The keyword of three letters in either case.
fn keyword_in_any_case(a: u8, b: u8, c: u8) -> Keyword
    ensures { result ≡ keyword_by_definition (str_to_ascii_lowercase (a ∷ b ∷ c ∷ [])) }
{
    let word = [
        a.to_ascii_lowercase(),
        b.to_ascii_lowercase(),
        c.to_ascii_lowercase(),
    ];
    keyword_of(&word)
}

fn are_letters(a: u8, b: u8, c: u8) -> bool
    ensures { result ≡ list_all is_ascii_alphabetic (a ∷ b ∷ c ∷ []) }
{
    a.is_ascii_alphabetic() && (b.is_ascii_alphabetic() && c.is_ascii_alphabetic())
}

/// Behind a keyword stand the line end, or a `;` and fields.
fn behind_keyword(keyword: Keyword, rest: &[u8]) -> Line<'_>
    ensures { said result ≡ says keyword rest.now }
{
    match rest {
        [] => Line::Says(keyword, None),
        [b';', fields @ ..] => Line::Says(keyword, Some(fields)),
        _ => Line::NoKeyword,
    }
}

/// The line's one reading.
pub fn read_line(line: &[u8]) -> Line<'_>
    ensures { said result ≡ line_of line.now }
{
    match past_blanks(line) {
        [] => Line::Blank,
        [a, b, c, rest @ ..] => {
            if are_letters(*a, *b, *c) {
                behind_keyword(keyword_in_any_case(*a, *b, *c), past_blanks(rest))
            } else {
                Line::NoKeyword
            }
        }
        _ => Line::NoKeyword,
    }
}
