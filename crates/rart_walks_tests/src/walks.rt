//! Counted walks: with each request for memory refused in turn, and where nothing may be requested; the bytes that
//! walks request, copies of views, and laws.

mod bound_visits;
mod capacity;
mod copies;
mod counted;
mod ended_visits;
pub mod forms;
mod laws;
mod requests;
mod seen_forms;
mod sweeps;
