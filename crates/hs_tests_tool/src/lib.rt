//! Tests of the whole tool that no line holds: bytes that are no text, a source at its limit, and faults of files and
//! sinks. The program `hs_tests_rows` prints the reports on other words and sources.
#![tactic(auto)]

#[cfg(test)]
mod faults;
