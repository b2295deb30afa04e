//! Of which texts the program is. `scripts/version --write` writes this file.

/// What `--version` prints behind the program's name: the version, the kit, whether the program is built over its
/// proofs, and the SHA-256 of the texts that are proved and built, which are all but this file (`sum_of_program` in
/// `scripts/crate_list.py`). `rt ci` and `rt run` build it over proofs; `scripts/build_unproved` compiles another
/// constant, which says `unproved`.
pub(crate) const VERSION: &str =
    "2.0.0 (rattle-kit-13f, proved, texts 64092c93fbcb0a66dae6183d7c3e806c1c38ca7e1821ac0b6b080d248c4d28a0)";
