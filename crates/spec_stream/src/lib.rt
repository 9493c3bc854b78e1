//! The rules of one IDE stream at a port, as definitions: what a sender and a receiver keep, what a send seals or is
//! refused for, what becomes of an arriving packet, and what keys do to slots (PCI Express Base 6.0 section 6.33, and
//! this profile).
#![tactic(auto)]
