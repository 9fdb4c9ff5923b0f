ghost use Rattle.std.specs.Prelude.{◌≡◌, List, option_and_then, IfOk};
ghost use Rattle.serde_json.specs.Read.{read};
ghost use Rattle.vk_model.specs.declared.entry.Entry.{Entry};
ghost use Rattle.vk_trace.specs.Inner.Gives.{Gives};
ghost use Rattle.vk_trace.specs.Trace.{IsTrace};

use crate::errors::ReadTraceError;
use crate::members::Member;
use crate::tokens::{Reading, Tokens};
use json::{Reader, Scratch};
use std::alloc::Global;
use vk_model::{Entry, Sequence};

/// The entries that the bytes of a trace mean. `NotTrace` comes only where they mean none.
///
/// They are read off the tokens of the text, and no value of JSON is built.
pub fn read_trace(alloc: Global, bytes: &[u8]) -> Result<Vec<Entry>, ReadTraceError>
    ensures ok { IfOk result (λ v. IsTrace bytes.now v.items) }
    ensures none { result ≡ Err ReadTraceError.NotTrace → (t : List Entry) → IsTrace bytes.now t → ⊥ }
{
    let Ok(text) = simdutf8::from_utf8_baseline(bytes) else {
        return Err(ReadTraceError::NotTrace);
    };
    let entries: Sequence<Entry> = meaning_of(alloc, text)?;
    Ok(entries.into_vec())
}

/// What the value of JSON that a text spells means.
fn meaning_of<T: Member>(alloc: Global, text: &str) -> Reading<T>
    ensures { Gives (λ x. x) result (option_and_then T.means (read text.now)) }
{
    let mut scratch = Scratch::new(alloc);
    let mut tokens = Tokens::new(Reader::new(text, &mut scratch)?);
    let meaning = T::member(alloc, &mut tokens)?;
    if tokens.take().is_some() {
        return Err(ReadTraceError::NotTrace);
    }
    Ok(meaning)
}
