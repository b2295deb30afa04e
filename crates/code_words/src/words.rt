//! What a code means.

ghost use Rattle.std.specs.Prelude.{◌≡◌, ◌≢◌, IfSome, IfNone};
ghost use Rattle.std.specs.List.{All, Contains};

/// A code of a refusal, in words.
#[derive(Clone, Copy, Debug, PartialEq, Eq)]
pub struct CodeWords {
    /// The code, as the text of a refusal has it: `F9 C2`.
    pub code: &'static str,
    /// What it means.
    pub meaning: &'static str,
    /// What usually causes it.
    pub cause: &'static str,
    /// What to do.
    pub remedy: &'static str,
}

/// The words of a code, in a list as those of [`group`](crate::group); `None` where none of them has that code.
///
/// ```
/// if let Some(words) = words_of(group(1), "F9 C2") {
///     // words.meaning is "a coordinate that is off the millimetre grid"
/// }
/// ```
pub fn words_of(codes: &[CodeWords], code: &str) -> Option<CodeWords>
    ensures listed { IfSome result (Contains codes.now) }
    ensures found { IfSome result (λ words. words.code.now ≡ code.now) }
    ensures none { IfNone result (All (λ words. words.code.now ≢ code.now) codes.now) }
{
    codes.iter().find(|words| words.code == code).copied()
}

/// The words of the code that a text begins with, as `F9 C2 main record 7 at 960`; `None` where none of the list does.
pub fn begun_by(codes: &[CodeWords], text: &str) -> Option<CodeWords>
    ensures listed { IfSome result (Contains codes.now) }
{
    codes.iter().find(|words| begins(words.code, text)).copied()
}

/// Whether a text begins with a code, which is a word of its own.
fn begins(code: &str, text: &str) -> bool {
    match text.strip_prefix(code) {
        Some(rest) => rest.is_empty() || rest.starts_with(' '),
        None => false,
    }
}
