// The engine for C: each export is an operation of the engine, or a piece of a log, over numbers and lent slices, each of which crosses as a pointer that isn't null and a length.
// C's side of it, with null pointers and with what each number means, is include/telvrang.h.
#![tactic(auto)]

mod faces;
mod feeding;
mod operations;
