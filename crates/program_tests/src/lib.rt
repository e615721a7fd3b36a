//! What no clause says of the runs and of what the programs rest on, as tables of cases.
#![tactic(auto)]

#[cfg(test)]
mod carets_tests;
#[cfg(test)]
mod command_line_tests;
#[cfg(test)]
mod ending_tests;
#[cfg(test)]
mod files;
#[cfg(test)]
mod given;
#[cfg(test)]
mod hostile_tests;
#[cfg(test)]
mod replay_tests;
#[cfg(test)]
mod rows;
#[cfg(test)]
mod run_fault_tests;
#[cfg(test)]
mod text_tests;
#[cfg(test)]
mod typing_tests;
