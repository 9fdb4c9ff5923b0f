ghost use Rattle.std.specs.Prelude.{◌≡◌, ◌++◌, ◌∷◌, [], Option, Some, OnOk, bytes_eq};
ghost use Rattle.serde_json.specs.Data.{Data};
ghost use Rattle.vk_trace.specs.Members.{first_member, word_and_members, each_member, list_of, bytes_value, u64_value, u32_value};
ghost use Rattle.vk_trace.specs.Inner.Gives.{Gives};
ghost use Rattle.vk_trace.specs.Inner.Ahead.{next, after, ahead, whole};

use crate::errors::ReadTraceError;
use crate::tokens::{Reading, Tokens};
use hex::FromHexError;
use std::alloc::{AllocError, Global};
use vk_model::Sequence;

/// A type whose values are written in a trace as a value of JSON.
pub trait Member: Drop {
    ghost means: { Data → Option Self };

    /// What the value of JSON that comes next means.
    fn member(alloc: Global, tokens: &mut Tokens<'_>) -> Reading<Self>
        ensures value { Gives (λ x. x) result (means (next tokens.old)) }
        ensures rest { OnOk result (after tokens.old ≡ Some tokens.new) };
}

/// What the first of the members that an array still has means.
pub fn first<T: Member>(alloc: Global, tokens: &mut Tokens<'_>) -> Reading<T>
    ensures value { Gives (λ x. (x, ahead tokens.new)) result (first_member T.means (ahead tokens.old)) }
    ensures rest { OnOk result (whole tokens.old ≡ whole tokens.new) }
{
    T::member(alloc, tokens)
}

/// The word at the front of an array.
#[tactic(auto, unfolding(crate::specs::Members::word_and_members))]
pub fn word_first<'a>(tokens: &mut Tokens<'a>) -> Reading<&'a str>
    ensures value { Gives (λ s. (s.now, ahead tokens.new)) result (word_and_members (next tokens.old)) }
    ensures rest { OnOk result (after tokens.old ≡ whole tokens.new) }
{
    tokens.begin()?;
    tokens.text()
}

/// Whether a word is the one of this name. At a literal name it becomes a comparison or two.
#[inline(always)]
pub fn is_named(word: &str, name: &str) -> bool
    ensures { result ≡ bytes_eq word.now name.now }
{
    let (word, name) = (word.as_bytes(), name.as_bytes());
    if word.len() != name.len() {
        return false;
    }
    let mut same = true;
    let mut at = name.len();
    while at > 0 {
        at -= 1;
        same = (name[at] == word[at]) & same;
    }
    same
}

/// The bytes that a text in hex of either case means, two digits a byte.
#[tactic(auto, unfolding(crate::specs::Members::bytes_value))]
fn bytes_of(alloc: Global, tokens: &mut Tokens<'_>) -> Reading<Sequence<u8>>
    ensures value { Gives (λ x. x) result (bytes_value (next tokens.old)) }
    ensures rest { OnOk result (after tokens.old ≡ Some tokens.new) }
{
    let text = tokens.text()?;
    match hex::decode(alloc, text.as_bytes()) {
        Ok(bytes) => Ok(Sequence::new(bytes)),
        Err(FromHexError::OutOfMemory) => Err(ReadTraceError::NoMemory),
        Err(_) => Err(ReadTraceError::NotTrace),
    }
}

/// The bytes that the first of the members means.
pub fn first_bytes(alloc: Global, tokens: &mut Tokens<'_>) -> Reading<Sequence<u8>>
    ensures value { Gives (λ x. (x, ahead tokens.new)) result (first_member bytes_value (ahead tokens.old)) }
    ensures rest { OnOk result (whole tokens.old ≡ whole tokens.new) }
{
    bytes_of(alloc, tokens)
}

/// What the members that an array still has mean, one after the other.
fn each<T: Member>(alloc: Global, tokens: &mut Tokens<'_>) -> Reading<Vec<T>>
    ensures value { Gives (λ v. v.items) result (each_member T.means (ahead tokens.old)) }
    ensures rest { OnOk result (whole tokens.old ≡ Some tokens.new) }
{
    let mut list = Vec::new(alloc);
    'members: while !tokens.take_end() {
        push_member(&mut list, T::member(alloc, tokens)?)?;
    }
    Ok(list)
}

/// Adds a member to a list. Most lists have one, and take memory for no more then.
#[inline(always)]
fn push_member<T: Drop>(list: &mut Vec<T>, member: T) -> Result<(), AllocError>
    ensures { OnOk result (list.new.items ≡ list.old.items ++ member ∷ []) }
{
    if list.is_empty() {
        list.reserve_exact(1)?;
    }
    list.push(member)?;
    Ok(())
}

impl<T: Member> Member for Sequence<T> {
    ghost means = { list_of T.means };

    #[tactic(auto, unfolding(crate::specs::Members::list_of))]
    fn member(alloc: Global, tokens: &mut Tokens<'_>) -> Reading<Sequence<T>> {
        tokens.begin()?;
        Ok(Sequence::new(each(alloc, tokens)?))
    }
}

impl Member for u64 {
    ghost means = { u64_value };

    fn member(_alloc: Global, tokens: &mut Tokens<'_>) -> Reading<u64> {
        tokens.number()
    }
}

impl Member for u32 {
    ghost means = { u32_value };

    #[tactic(auto, unfolding(crate::specs::Members::u32_value))]
    fn member(_alloc: Global, tokens: &mut Tokens<'_>) -> Reading<u32> {
        let n = tokens.number()?;
        if n > u32::MAX as u64 {
            return Err(ReadTraceError::NotTrace);
        }
        Ok(n as u32)
    }
}
