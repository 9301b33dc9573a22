//! Commands, as the words of the command line give them.

use rp_base::Text;

/// What the words of the command line ask for.
#[derive(Drop)]
pub enum Command {
    /// To run scripts.
    Run(Run),
    /// To answer a question about the script at this path.
    Script(Question, Text),
    /// To tell whether principals have a permission.
    May(May),
    /// To run the large input of this size, from 1 to 10,000.
    Large(u32),
}

/// What is asked about a script.
#[derive(Clone, Copy, Debug, PartialEq, Eq)]
pub enum Question {
    /// Whether it is accepted.
    Check,
    /// How it runs: its text with its guards.
    Show,
}

/// To run scripts under declarations, each for its principals, within limits.
#[derive(Drop)]
pub struct Run {
    /// The path of the declarations.
    pub declarations: Text,
    /// The scripts, at least 1 and at most 16.
    pub pairs: Vec<Pair>,
    /// How many steps each session may take.
    pub steps: u64,
    /// How many cells all sessions together may take.
    pub cells: u64,
    /// The sessions that take a turn first, in order, each by its number from 1.
    pub turns: Vec<u32>,
    /// Whether the trail of decisions is written.
    pub trail: bool,
}

/// A script, and the principals for whom it runs.
#[derive(Drop)]
pub struct Pair {
    /// The ids of the principals, as in the words.
    pub who: Text,
    /// The ids of the principals.
    pub ids: Vec<Text>,
    /// The path of the script.
    pub path: Text,
}

/// To tell whether principals have a permission under declarations.
#[derive(Drop)]
pub struct May {
    /// The path of the declarations.
    pub declarations: Text,
    /// The ids of the principals.
    pub ids: Vec<Text>,
    /// The id of the permission.
    pub permission: Text,
}
