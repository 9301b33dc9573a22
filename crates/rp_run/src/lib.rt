//! The program: words and files in, text and a status out.
#![tactic(auto)]

mod admitting;
mod answer;
mod declaring;
mod keying;
mod large;
mod loading;
mod no_world;
mod playing;
mod program;
mod reading;
mod ready;
mod script_answer;
mod scripts;
mod sessions;
mod stop;
mod telling;
mod writing;

pub use program::{Ran, run};
