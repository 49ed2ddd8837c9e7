//! Tests of the libraries by their public calls, a module for each: what no clause says, on values from the standards'
//! and manuals' own tables or worked out apart. A library is proved once, and its tests here over its contracts.
#![tactic(auto)]

#[cfg(test)]
mod avr;
#[cfg(test)]
mod cores;
#[cfg(test)]
mod emu;
#[cfg(test)]
mod fx;
#[cfg(test)]
mod hex;
#[cfg(test)]
mod io;
#[cfg(test)]
mod iohw;
#[cfg(test)]
mod isa;
#[cfg(test)]
mod map;
#[cfg(test)]
mod placing;
#[cfg(test)]
mod programs;
#[cfg(test)]
mod space;
#[cfg(test)]
mod typed_core;
