//! Rows of asks, of which each call of the keeper and of the shelf fails in turn.
mod entries;
mod jobs;
mod looks;
mod rows;
mod steps;
