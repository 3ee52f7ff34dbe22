//! Tests of the map.

mod calls;
mod clones;
mod drops;
mod errors;
mod laws;
mod migrations;
mod names;
mod no_requests;
mod sizes;
mod taken_in_turn;
mod taken_visits;
mod words;
