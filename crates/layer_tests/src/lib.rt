//! Tests of layers from their files: the areas that are printed, index files, which layers tile their city, the texts
//! of faults and their pieces, which files are read and how files are replaced.
#![tactic(auto)]

#[cfg(test)]
mod area_runs;
#[cfg(test)]
mod fault_texts;
#[cfg(test)]
mod index_runs;
#[cfg(test)]
mod layers_loaded;
#[cfg(test)]
mod replacing;
#[cfg(test)]
mod source_files;
#[cfg(test)]
mod text_pieces_told;
