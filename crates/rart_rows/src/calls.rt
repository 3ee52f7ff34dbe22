//! The calls of the map, by what they do.

pub mod both;
pub mod callbacks;
pub mod edits;
pub mod groups;
pub mod loads;
pub mod looks;
pub mod many;
pub mod pairs;
pub mod routes;
pub mod step;
pub mod table_changes;
pub mod tables;
pub mod tried_routes;
pub mod turns;
pub mod unions;
pub mod updates;
pub mod views;
