//! Tests.
#![tactic(auto)]

#[cfg(test)]
mod lmtp_core_tests;
