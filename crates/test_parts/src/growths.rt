//! Lists that are created even if memory is refused once, and checks of the results of calls.

ghost use Rattle.std.specs.Prelude.{◌≡◌, ◌∷◌, [], IfOk};

use std::alloc::{AllocError, Global};
use std::fmt::Display;
use tc_channel::{Event, Octets};

/// Returns an empty list with room for `count` items, even if memory is refused once.
pub fn room<T>(alloc: Global, count: usize) -> Result<Vec<T>, AllocError>
    ensures { IfOk result (λ list. list.items ≡ []) }
{
    match Vec::with_capacity(alloc, count) {
        Ok(list) => Ok(list),
        Err(_) => Vec::with_capacity(alloc, count),
    }
}

/// Returns a list of this item alone, even if memory is refused once.
pub fn list_of<T: Drop>(alloc: Global, item: T) -> Result<Vec<T>, AllocError>
    ensures { IfOk result (λ list. list.items ≡ item ∷ []) }
{
    let mut list = room(alloc, 1)?;
    list.push(item)?;
    Ok(list)
}

/// Returns a copy of these items, even if memory is refused once.
pub fn copied<T: Copy>(alloc: Global, items: &[T]) -> Result<Vec<T>, AllocError> {
    match Vec::from_slice(alloc, items) {
        Ok(copy) => Ok(copy),
        Err(_) => Vec::from_slice(alloc, items),
    }
}

/// Returns a copy of these octets on the heap, even if memory is refused once.
pub fn octets_of(alloc: Global, octets: &[u8]) -> Result<Octets, AllocError> {
    Ok(Octets::from(copied(alloc, octets)?))
}

/// Appends an event to a journal, even if memory is refused once.
pub fn note(journal: &mut Vec<Event>, event: Event) -> Result<(), AllocError> {
    if journal.reserve(1).is_err() {
        journal.reserve(1)?;
    }
    journal.push(event)?;
    Ok(())
}

/// Makes a call. If memory for it was refused, that is printed under this name, and the call is made again.
pub fn made_again<T, E: Drop + PartialEq, F: Fn() -> Result<T, E>>(
    rt: &impl Print,
    name: &str,
    no_memory: E,
    call: &F,
) -> Result<T, E>
    requires { F.IsAlwaysCallable call.now }
{
    match call() {
        Err(fault) if fault == no_memory => {
            let _ = println!(rt; "refused: {name}");
            call()
        }
        answer => answer,
    }
}

/// Returns `Some(true)` if a call gave the expected result, `Some(false)` if it failed with `no_memory`, and otherwise
/// `None`.
pub fn is_answered<T: Drop + PartialEq, E: Drop + PartialEq>(
    answer: Result<T, E>,
    expected: &T,
    no_memory: E,
) -> Option<bool> {
    match answer {
        Ok(found) if found == *expected => Some(true),
        Err(fault) if fault == no_memory => Some(false),
        _ => None,
    }
}

/// Returns `Some(true)` if a take gave the expected packet or unit, `Some(false)` if it failed with `no_memory`, and
/// otherwise `None`.
pub fn is_taken<E: Drop + PartialEq>(
    answer: Result<Vec<u8>, E>,
    item: &[u8],
    no_memory: E,
) -> Option<bool> {
    match answer {
        Ok(found) if found.as_slice() == item => Some(true),
        Err(fault) if fault == no_memory => Some(false),
        _ => None,
    }
}

/// Returns whether each fault prints as the text that is listed with it.
pub fn have_texts<F: Display>(alloc: Global, texts: &[(F, &str)]) -> bool {
    texts.iter().all(|(fault, text)| fault
        .to_string(alloc)
        .is_ok_and(|written| written.as_str() == *text))
}
