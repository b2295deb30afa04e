//! Codes of refusals, in words.

use code_words::{CodeWords, GROUPS, begun_by, group, words_of};
use geo_exact::{ByteOut, Failed};
use std::alloc::{AllocError, Global};
use std::fmt::Write;
use text_pieces::put_all;

/// Why a code is not explained.
pub(crate) enum ExplainFault {
    /// There is no such code.
    Unknown,
    /// Memory was refused for the text, or it could not be written.
    Output,
}

impl From<AllocError> for ExplainFault {
    fn from(_: AllocError) -> ExplainFault {
        ExplainFault::Output
    }
}

impl From<Failed> for ExplainFault {
    fn from(_: Failed) -> ExplainFault {
        ExplainFault::Output
    }
}

/// Prints what a code means, what usually causes it, and what to do; of several that begin with these words, as `F9`,
/// each; of the text of a refusal, as `parcels: H2 60 0 60 100 net 1`, that of its code; without words a line for every
/// code.
pub(crate) fn explain<W: ByteOut>(
    alloc: Global,
    words: &[&str],
    out: &mut W,
) -> Result<(), ExplainFault> {
    if words.is_empty() {
        return list_all(alloc, out);
    }
    let asked = joined(alloc, words)?;
    if let Some(found) = words_of_code(asked.as_str()) {
        return explain_one(alloc, &found, out);
    }
    let mut some = false;
    for place in 0..GROUPS {
        for code in group(place) {
            if is_of(code.code, asked.as_str()) {
                explain_one(alloc, code, out)?;
                some = true;
            }
        }
    }
    if some {
        return Ok(());
    }
    match words_of_refusal(asked.as_str()) {
        Some(found) => explain_one(alloc, &found, out),
        None => Err(ExplainFault::Unknown),
    }
}

/// The words of the code in a refusal as it was printed, whole or from its code on. Where several parts of it begin as
/// codes do, the last counts: a path before it may be named as a code.
fn words_of_refusal(text: &str) -> Option<CodeWords> {
    let mut found = None;
    for part in text.split(": ") {
        for place in 0..GROUPS {
            if let Some(words) = begun_by(group(place), part) {
                found = Some(words);
            }
        }
    }
    found
}

/// The words of a code.
pub(crate) fn words_of_code(code: &str) -> Option<CodeWords> {
    for place in 0..GROUPS {
        if let Some(words) = words_of(group(place), code) {
            return Some(words);
        }
    }
    None
}

/// The words with a space between two of them.
fn joined(alloc: Global, words: &[&str]) -> Result<String, AllocError> {
    let mut text = String::new(alloc);
    for word in words {
        if !text.is_empty() {
            text.push(' ')?;
        }
        text.push_str(word)?;
    }
    Ok(text)
}

/// Whether a code is one of several that share their first word, as `F9 C2` of `F9`.
fn is_of(code: &str, first: &str) -> bool {
    match code.strip_prefix(first) {
        Some(rest) => rest.starts_with(' '),
        None => false,
    }
}

/// Prints one code.
fn explain_one<W: ByteOut>(
    alloc: Global,
    words: &CodeWords,
    out: &mut W,
) -> Result<(), ExplainFault> {
    let (code, meaning, cause, remedy) = (words.code, words.meaning, words.cause, words.remedy);
    let text = if cause.is_empty() {
        format!(in alloc; "{code}: {meaning}\nwhat to do: {remedy}\n")?
    } else {
        format!(in alloc; "{code}: {meaning}\nusual cause: {cause}\nwhat to do: {remedy}\n")?
    };
    put_all(text.as_bytes(), out)?;
    Ok(())
}

/// Prints a line for each code.
fn list_all<W: ByteOut>(alloc: Global, out: &mut W) -> Result<(), ExplainFault> {
    for place in 0..GROUPS {
        for words in group(place) {
            let (code, meaning) = (words.code, words.meaning);
            let line = format!(in alloc; "{code}: {meaning}\n")?;
            put_all(line.as_bytes(), out)?;
        }
    }
    Ok(())
}

/// The words of the code that the text of a run's fault has: it begins the text, or what stands behind a colon and a
/// space. The first counts: a path stands behind its code.
pub(crate) fn words_in(text: &str) -> Option<CodeWords> {
    for part in text.split(": ") {
        for place in 0..GROUPS {
            if let Some(words) = begun_by(group(place), part) {
                return Some(words);
            }
        }
    }
    None
}
