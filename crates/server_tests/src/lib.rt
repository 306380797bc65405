//! The server and what it stands on, tried from outside: each test uses public calls alone.
#![tactic(auto)]

#[cfg(test)]
mod crash_tests;
#[cfg(test)]
mod mail_server_tests;
#[cfg(test)]
mod port_model_tests;
#[cfg(test)]
mod serve_tests;
