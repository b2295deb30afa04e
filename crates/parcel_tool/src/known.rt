//! What is known of why a run ended early, beside the words of its code.

use code_words::CodeWords;
use std::alloc::{AllocError, Global};

/// What is known of a refusal. It is given only where what was read says so.
#[derive(Drop)]
pub(crate) enum Known {
    /// Nothing: its usual cause is told, and called so.
    Nothing,
    /// That its usual causes are none here.
    NotUsual,
    /// Its cause.
    Cause(String),
    /// Its cause, and what to do about that.
    Mend(String, &'static str),
}

/// A cause that is told by words alone.
pub(crate) fn cause(alloc: Global, words: &str) -> Result<Known, AllocError> {
    let text = format!(in alloc; "{words}")?;
    Ok(Known::Cause(text))
}

/// The same, and what to do about it.
pub(crate) fn mend(alloc: Global, words: &str, remedy: &'static str) -> Result<Known, AllocError> {
    let text = format!(in alloc; "{words}")?;
    Ok(Known::Mend(text, remedy))
}

/// What stands behind `hint: ` for a code, with what is known.
pub(crate) fn hint_with(
    alloc: Global,
    words: &CodeWords,
    known: &Known,
) -> Result<String, AllocError> {
    let (meaning, remedy) = (words.meaning, words.remedy);
    match known {
        Known::Nothing if !words.cause.is_empty() => {
            let usual = words.cause;
            format!(in alloc; "{meaning} (usual cause: {usual}); {remedy}")
        }
        Known::Nothing | Known::NotUsual => format!(in alloc; "{meaning}; {remedy}"),
        Known::Cause(why) => format!(in alloc; "{meaning} ({why}); {remedy}"),
        Known::Mend(why, instead) => {
            let instead = *instead;
            format!(in alloc; "{meaning} ({why}); {instead}")
        }
    }
}
