//! Tests of units in projections: texts as OGC, ESRI and GDAL write them, and hostile ones.
#![tactic(auto)]

#[cfg(test)]
mod texts;
