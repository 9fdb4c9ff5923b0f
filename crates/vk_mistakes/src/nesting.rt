use json::{Reader, Scratch, Token};
use std::alloc::{AllocError, Global};

/// The byte at which the first array or object of a text of JSON begins that lies in as many others as
/// are given, counted from 0; none where none does. A text that is no JSON is read up to its first
/// fault.
///
/// # Errors
///
/// Where no memory is left.
pub fn first_nested(alloc: Global, text: &str, others: u64) -> Result<Option<usize>, AllocError> {
    let mut scratch = Scratch::new(alloc);
    let mut reader = Reader::new(text, &mut scratch)?;
    let mut open: u64 = 0;
    let mut place = reader.offset();
    while let Some(token) = reader.next() {
        match token {
            Token::BeginArray | Token::BeginObject => {
                if open >= others {
                    return Ok(Some(place));
                }
                open += 1;
            }
            Token::EndArray | Token::EndObject => open = open.saturating_sub(1),
            _ => {}
        }
        place = reader.offset();
    }
    Ok(None)
}
