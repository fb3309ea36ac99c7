// Examples that are run: circuits that are looked at, the drawing, arrival times and paths, margins, texts that are read and
// written. Circuits that are gone through time are tried by the program `bench`.
#![tactic(auto)]

#[cfg(test)]
mod arrival_trials;
#[cfg(test)]
mod drawing_trials;
#[cfg(test)]
mod look_trials;
#[cfg(test)]
mod slack_trials;
#[cfg(test)]
mod text_trials;
