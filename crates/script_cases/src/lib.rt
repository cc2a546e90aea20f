// Worked cases of the planner's script: each form of a line, numbers at and above their bounds, silent and unknown lines, and the lines of
// a script.
#![tactic(auto)]

#[cfg(test)]
mod forms;
#[cfg(test)]
mod lines;
#[cfg(test)]
mod replies;
#[cfg(test)]
mod unknown;
