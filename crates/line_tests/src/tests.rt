//! A module for each crate that is tested.
mod frames;
mod lines;
mod links;
mod printer;
mod replies;
mod senders;
mod temps;
mod texts;
mod words;
