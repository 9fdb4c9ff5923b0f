use json::{Reader, Scratch, Token};
use std::alloc::{AllocError, Global};

/// The objects of a text of JSON, as far as they were looked for.
#[derive(Clone, Copy, Drop)]
pub struct ObjectsFound {
    /// The byte at which the first one begins, counted from 0.
    pub first: usize,
    /// How many there are.
    pub count: u64,
    /// Whether one of them lies in another.
    pub nested: bool,
}

/// The objects of a text of JSON: how many begin in it, where the first one does, and whether one lies
/// in another; none where none begins. A text that is no JSON is read up to its first fault.
///
/// # Errors
///
/// Where no memory is left.
pub fn count_objects(alloc: Global, text: &str) -> Result<Option<ObjectsFound>, AllocError> {
    let mut scratch = Scratch::new(alloc);
    let mut reader = Reader::new(text, &mut scratch)?;
    let mut found: Option<ObjectsFound> = None;
    let mut open: u64 = 0;
    let mut place = reader.offset();
    while let Some(token) = reader.next() {
        match token {
            Token::BeginObject => {
                found = Some(one_more(found, place, open > 0));
                open = open.saturating_add(1);
            }
            Token::EndObject => open = open.saturating_sub(1),
            _ => {}
        }
        place = reader.offset();
    }
    Ok(found)
}

/// The objects that were found, with one more that begins at a byte, and may lie in another.
fn one_more(found: Option<ObjectsFound>, place: usize, is_inside: bool) -> ObjectsFound {
    match found {
        Some(found) => ObjectsFound {
            count: found.count.saturating_add(1),
            nested: found.nested || is_inside,
            ..found
        },
        None => ObjectsFound {
            first: place,
            count: 1,
            nested: is_inside,
        },
    }
}
