ghost use Rattle.std.specs.Prelude.{◌≡◌, option_map, option_and_then, codes};
ghost use Rattle.serde_json.specs.Find.{as_str, at, get};
ghost use Rattle.serde_json.specs.View.{view};
ghost use Rattle.vk_calls.specs.Calls.{
  said,
  data_of,
  number_in,
  call_from,
  entry_in,
  pair_in,
  call_of_entry,
  call_of_pair,
  call_in,
};

use serde_json::Value;
use vk_model::At;

/// A call of a captured program.
#[derive(Clone, Copy)]
pub struct Call<'a> {
    /// Its number in the capture.
    pub number: u64,
    /// Its name.
    pub name: &'a str,
    /// What the point stands for beyond the call, where that is said.
    pub why: Option<&'a str>,
}

/// The calls that the points of a trace stand for, as a file beside the trace has them.
#[derive(Drop)]
pub struct Calls {
    /// The object that the file is.
    pub(crate) value: Value,
}

impl Calls {
    /// The call that a point stands for; none where the file has none.
    pub fn call_of(&self, point: At) -> Option<Call<'_>>
        ensures { option_map said result ≡ call_in (data_of self.now) point }
    {
        match point {
            At::Entry(e) | At::Wait(e, _, _) | At::Signal(e, _, _) => {
                call_of_entry(entry_of(&self.value, e)?)
            }
            At::Command(e, b, c) => call_of_pair(pair_of(entry_of(&self.value, e)?, b, c)?),
        }
    }
}

/// The object of an entry.
fn entry_of(file: &Value, e: usize) -> Option<&Value>
    ensures { option_map (λ v. view v.now) result ≡ entry_in e (view file.now) }
{
    file.get("entries")?.get(e)
}

/// The pair of a command, in the object of its submit.
fn pair_of(entry: &Value, b: usize, c: usize) -> Option<&Value>
    ensures { option_map (λ v. view v.now) result ≡ pair_in b c (view entry.now) }
{
    entry.get("batches")?.get(b)?.get(c)
}

/// The call of the object of an entry.
fn call_of_entry(entry: &Value) -> Option<Call<'_>>
    ensures { option_map said result ≡ call_of_entry (view entry.now) }
{
    call_from(
        number_in(entry.get("call")),
        text_in(entry.get("name")),
        text_in(entry.get("why")),
    )
}

/// The call of a pair.
fn call_of_pair(pair: &Value) -> Option<Call<'_>>
    ensures { option_map said result ≡ call_of_pair (view pair.now) }
{
    call_from(number_in(pair.get(0usize)), text_in(pair.get(1usize)), None)
}

/// A number, where there is one.
fn number_in(value: Option<&Value>) -> Option<u64>
    ensures { result ≡ option_and_then number_in (option_map (λ v. view v.now) value.entry) }
{
    value?.as_u64()
}

/// A text, where there is one.
fn text_in(value: Option<&Value>) -> Option<&str>
    ensures { option_map (λ s. s.now) result ≡ option_and_then as_str (option_map (λ v. view v.now) value.entry) }
{
    value?.as_str()
}

/// The call with this number and this name, where both are there.
fn call_from<'a>(
    number: Option<u64>,
    name: Option<&'a str>,
    why: Option<&'a str>,
) -> Option<Call<'a>>
    ensures { option_map said result
        ≡ call_from number (option_map (λ s. s.now) name.entry) (option_map (λ s. s.now) why.entry) }
{
    match (number, name) {
        (Some(number), Some(name)) => Some(Call { number, name, why }),
        _ => None,
    }
}
