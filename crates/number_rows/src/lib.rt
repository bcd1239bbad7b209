//! Worked values and tables of cases of the numbers, their functions and the library. Tests alone.
#![tactic(auto)]

#[cfg(test)]
mod elementary;
#[cfg(test)]
mod library;
#[cfg(test)]
mod lookups;
#[cfg(test)]
mod numbers;
#[cfg(test)]
mod trigonometric;
