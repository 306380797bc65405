//! Calls on mailboxes, tried from outside: each test uses public calls alone.
#![tactic(auto)]

#[cfg(test)]
mod appending;
#[cfg(test)]
mod delivering;
