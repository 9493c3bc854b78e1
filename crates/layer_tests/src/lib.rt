//! Tests of public calls of several crates by known bytes: published vectors of the cipher, messages, objects of key
//! management, what a device answers to requests, and files of the system and in memory, whose reads and puts fail.
#![tactic(auto)]

#[cfg(test)]
mod cipher;
#[cfg(test)]
mod files;
#[cfg(test)]
mod keys;
#[cfg(test)]
mod lines;
#[cfg(test)]
mod messages;
#[cfg(test)]
mod requests;
