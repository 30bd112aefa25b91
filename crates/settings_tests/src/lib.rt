//! Tests of settings that no call of the program can show: which ones the words of the command line and the text of the settings file
//! give, each alone and both together.
#![tactic(auto)]

#[cfg(test)]
mod merged;
#[cfg(test)]
mod texts;
#[cfg(test)]
mod words;
