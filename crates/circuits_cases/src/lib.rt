// Worked cases of circuits.
#![tactic(auto)]

#[cfg(test)]
mod cases;
