//! Tests of the language by public calls: of the lexer and the parser, on texts whose tokens and trees were worked out apart;
//! of the checker and of the meaning of programs, statements with their types or the first rule that they break, and what a
//! run of a program does; of the lowering, one program for each kind of statement, whose operations are made one by one and
//! show what the interpreter tells of the program; of commands where a call of a store fails, or where `out` has no room; and
//! of the generated programs. What else commands tell stands in the rows of `tests/`.
#![tactic(auto)]

#[cfg(test)]
mod commands;
#[cfg(test)]
mod expressions;
#[cfg(test)]
mod far;
#[cfg(test)]
mod generated;
#[cfg(test)]
mod lex;
#[cfg(test)]
mod lowering;
#[cfg(test)]
mod parse;
#[cfg(test)]
mod rows;
#[cfg(test)]
mod runs;
#[cfg(test)]
mod stepper;
#[cfg(test)]
mod told;
#[cfg(test)]
mod units;
