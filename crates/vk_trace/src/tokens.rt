//! The tokens of a text of JSON, taken one after the other as the forms of a trace want them.
ghost use Rattle.std.specs.Prelude.{◌≡◌, ◌∷◌, [], Some, None, MatchOption, IfSome, OnOk, option_and_then};
ghost use Rattle.std.specs.Str.Parse.{digits_value, IsNumeral};
ghost use Rattle.std.specs.Bool.{MatchBool};
ghost use Rattle.json.specs.Json.{after_end_array};
ghost use Rattle.json.specs.Reads.{token_of};
ghost use Rattle.serde_json.specs.Find.{as_str, as_u64};
ghost use Rattle.serde_json.specs.Read.{number_of};
ghost use Rattle.vk_trace.specs.Members.{array_members, no_member, u64_value};
ghost use Rattle.vk_trace.specs.Inner.Gives.{Gives};
ghost use Rattle.vk_trace.specs.Inner.Ahead.{next, after, ahead, whole};

use crate::errors::ReadTraceError;
use fast_float::Numeral;
use json::{Reader, Token};

/// What a reader answers. It has no error but those of `read_trace`.
pub type Reading<T> = Result<T, ReadTraceError>;

/// How deep arrays may be nested in a text.
const MAX_DEPTH: usize = 127;

/// So many digits always write a number below 2 ^ 64.
const MOST_DIGITS: usize = 19;

/// The tokens of a text that are still to come, and how many arrays they are in.
#[derive(Drop)]
pub struct Tokens<'a> {
    reader: Reader<'a>,
    nesting: usize,
}

impl<'a> Tokens<'a> {
    /// The tokens of a whole text.
    pub fn new(reader: Reader<'a>) -> Tokens<'a>
        ensures tokens { result.reader ≡ reader.entry }
        ensures outside { result.nesting ≡ 0 }
    {
        Tokens { reader, nesting: 0 }
    }

    /// Takes the next token. A bracket that is taken so isn't counted.
    pub fn take(&mut self) -> Option<Token<'a>>
        ensures token { MatchOption result (self.old.reader ≡ []) (λ t. self.old.reader ≡ token_of t ∷ self.new.reader) }
        ensures same { self.new.nesting ≡ self.old.nesting }
    {
        self.reader.next()
    }

    /// Takes the bracket that begins an array.
    pub fn begin(&mut self) -> Reading<()>
        ensures members { Gives (λ _. ahead self.new) result (array_members (next self.old)) }
        ensures rest { OnOk result (after self.old ≡ whole self.new) }
    {
        let Some(token) = self.reader.next() else {
            return Err(ReadTraceError::NotTrace);
        };
        match token {
            Token::BeginArray => {
                if self.nesting >= MAX_DEPTH {
                    return Err(ReadTraceError::NotTrace);
                }
                self.nesting += 1;
                Ok(())
            }
            _ => Err(ReadTraceError::NotTrace),
        }
    }

    /// Takes the bracket that ends an array, if it has no further member.
    pub fn take_end(&mut self) -> bool
        ensures { MatchBool result ((ahead self.old ≡ []) × (whole self.old ≡ Some self.new))
            ((self.new ≡ self.old) × (after_end_array self.old.reader ≡ None)) }
    {
        if !self.reader.take_end_array() {
            return false;
        }
        self.nesting = self.nesting.saturating_sub(1);
        true
    }

    /// Takes the bracket that ends an array, which has no further member.
    pub fn end(&mut self) -> Reading<()>
        ensures members { Gives (λ x. x) result (no_member (ahead self.old)) }
        ensures rest { OnOk result (whole self.old ≡ Some self.new) }
    {
        if self.take_end() {
            Ok(())
        } else {
            Err(ReadTraceError::NotTrace)
        }
    }

    /// Takes a string.
    pub fn text(&mut self) -> Reading<&'a str>
        ensures value { Gives (λ s. s.now) result (as_str (next self.old)) }
        ensures rest { OnOk result (after self.old ≡ Some self.new) }
    {
        let Some(token) = self.reader.next() else {
            return Err(ReadTraceError::NotTrace);
        };
        match token {
            Token::String(text) => Ok(text),
            _ => Err(ReadTraceError::NotTrace),
        }
    }

    /// Takes a number below 2 ^ 64, written with no sign, point or exponent.
    pub fn number(&mut self) -> Reading<u64>
        ensures value { Gives (λ x. x) result (u64_value (next self.old)) }
        ensures rest { OnOk result (after self.old ≡ Some self.new) }
    {
        let Some(token) = self.reader.next() else {
            return Err(ReadTraceError::NotTrace);
        };
        match token {
            Token::Number(text) => whole_number(text),
            _ => Err(ReadTraceError::NotTrace),
        }
    }
}

/// The number that a text of JSON writes, if it is a whole one below 2 ^ 64 with no sign.
pub fn whole_number(text: &str) -> Reading<u64>
    ensures { Gives (λ x. x) result (option_and_then as_u64 (number_of text.now)) }
{
    let bytes = text.as_bytes();
    if let Some(number) = few_digits(bytes) {
        return Ok(number);
    }
    match Numeral::scan(bytes).to_u64() {
        Some(number) => Ok(number),
        None => Err(ReadTraceError::NotTrace),
    }
}

/// The number that digits write, if there is nothing else and no more than 19 of them.
fn few_digits(digits: &[u8]) -> Option<u64>
    ensures { IfSome result (λ n. IsNumeral 10 digits.now × (digits_value 10 digits.now ≡ n)) }
{
    if digits.is_empty() || digits.len() > MOST_DIGITS {
        return None;
    }
    let mut number = 0;
    for byte in digits {
        let digit = byte.wrapping_sub(b'0');
        if digit > 9 {
            return None;
        }
        number = number * 10 + digit as u64;
    }
    Some(number)
}
