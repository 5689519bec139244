//! Tests of the REST API: paths and methods, what messages ask, replies, and a worker at a door in memory. They are apart from
//! `octo_api_routes`, `octo_api_requests`, `octo_api_replies` and `octo_api_worker` because their proofs are slow.
#![tactic(auto)]

#[cfg(test)]
mod tests;
