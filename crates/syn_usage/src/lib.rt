//! The command line of the program: `synth [-s] [-c SCRIPT | -f FILE] [-w N]`.
//!
//! The words are those of a simple command of `clap`, whose meaning `specs/CommandLine.antt` cites: it says which
//! words are refused, and which texts the options have. `specs/Usage.antt` says what is run by them. The number of
//! workers is read as the numbers of scripts are. `-s` means nothing: programs that call this one may pass it.
//! A further option is a further argument of the command in `arguments.rt` and a further rule in the specs.
#![tactic(auto)]

mod arguments;

pub use arguments::{Arguments, UsageFault, Work, arguments_in, worked_words};
