//! Tests of the commands of IMAP and of the lines of its answers, by public calls alone.
#![tactic(auto)]

#[cfg(test)]
mod clients;
#[cfg(test)]
mod commands;
#[cfg(test)]
mod families;
#[cfg(test)]
mod lines;
#[cfg(test)]
mod manners;
#[cfg(test)]
mod shapes;
