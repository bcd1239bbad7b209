//! Worked cases of the whole command, run over files and a console in memory.
#![tactic(auto)]

#[cfg(test)]
mod cases;
#[cfg(test)]
mod failing;
#[cfg(test)]
mod fixture;
#[cfg(test)]
mod formats;
#[cfg(test)]
mod tables;
#[cfg(test)]
mod texts;
