//! A module for each part that is tested.
mod boot;
mod link;
mod link_full;
mod link_limits;
