// Worked cases of opening, adding to, changing and loading a board.
#![tactic(auto)]

#[cfg(test)]
mod adding;
#[cfg(test)]
mod changing;
#[cfg(test)]
mod loading;
#[cfg(test)]
mod opening;
#[cfg(test)]
mod sample;
