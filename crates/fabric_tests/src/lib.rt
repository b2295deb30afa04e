//! Tests of cities, layers and fabrics: worked examples of tilings, of searches, of each edit and
//! of each refusal, searches beside plain scans, growths that are refused, and layers of the
//! greatest size.
#![tactic(auto)]

#[cfg(test)]
mod candidates;
#[cfg(test)]
mod changes;
#[cfg(test)]
mod cities;
#[cfg(test)]
mod follows;
#[cfg(test)]
mod gone_corners;
#[cfg(test)]
mod locating;
#[cfg(test)]
mod plain_scans;
#[cfg(test)]
mod refusals;
#[cfg(test)]
mod refused_copies;
#[cfg(test)]
mod refused_edits;
#[cfg(test)]
mod searches_refused;
#[cfg(test)]
mod size;
#[cfg(test)]
mod steps;
#[cfg(test)]
mod straightens;
#[cfg(test)]
mod tens;
#[cfg(test)]
mod tilings;
