//! Which words are a command, and how a command ends.
ghost use Rattle.std.specs.Prelude.{◌≡◌, ◌≤◌, IfSome};
ghost use Rattle.ax_session.specs.Command.{HasCount, at_most_thousand, count_of, command_of, generating, has_zero_in_front, status_number};

use ax_base::are_digits;

/// What the program is asked to do.
#[derive(Clone, Copy, Debug, PartialEq, Eq)]
pub enum Command {
    /// Write the last tree of a story.
    Dump,
    /// Play a story in turns, and write what its client was told.
    Replay,
    /// Run the page and the client of a story on two threads, and write what the client was told.
    Run,
    /// Generate the story of so many items, from 1 to 1,000, play it, and write how much its client was told.
    Gen(u16),
}

/// How the top call ends.
#[derive(Clone, Copy, Debug, PartialEq, Eq)]
pub enum Status {
    /// The story was accepted, and the whole text was written.
    Done,
    /// The input is no accepted story, and the line that says why was written whole.
    Refused,
    /// A read failed. Nothing is written.
    ReadFault,
    /// A write failed. Only a prefix of the text was written.
    WriteFault,
    /// There was no memory left. Nothing is written.
    NoMemory,
    /// The words are no command. Nothing is read or written.
    Words,
}

impl Status {
    /// The number with which the program ends. Status 1 is none of them.
    pub fn number(self) -> u8
        ensures { result ≡ status_number self }
    {
        match self {
            Status::Done => 0,
            Status::Refused => 2,
            Status::ReadFault => 3,
            Status::WriteFault => 4,
            Status::NoMemory => 5,
            Status::Words => 6,
        }
    }
}

/// The command of these words, or `None` exactly where they are none of the forms.
pub fn command_of(words: &[String]) -> Option<Command>
    ensures form { result ≡ command_of words.now }
    ensures count { IfSome result HasCount }
{
    match words {
        [word] => {
            if word.as_str() == "dump" {
                Some(Command::Dump)
            } else if word.as_str() == "replay" {
                Some(Command::Replay)
            } else if word.as_str() == "run" {
                Some(Command::Run)
            } else {
                None
            }
        }
        [first, word] => {
            if first.as_str() == "gen" {
                generating(count_of(word.as_str()))
            } else {
                None
            }
        }
        _ => None,
    }
}

/// The command that generates the story of so many items.
fn generating(count: Option<u16>) -> Option<Command>
    ensures { result ≡ generating count }
{
    match count {
        Some(count) => Some(Command::Gen(count)),
        None => None,
    }
}

/// The number from 1 to 1,000 that a word writes in decimal digits, without a sign and without a zero in front.
fn count_of(word: &str) -> Option<u16>
    ensures form { result ≡ count_of word.now }
    ensures range { IfSome result (λ n. (1 ≤ n) × (n ≤ 1000)) }
{
    if !are_digits(word.as_bytes(), 4) || has_zero_in_front(word.as_bytes()) {
        return None;
    }
    match word.parse::<u16>() {
        Ok(count) => at_most_thousand(count),
        Err(_) => None,
    }
}

fn has_zero_in_front(word: &[u8]) -> bool
    ensures { result ≡ has_zero_in_front word.now }
{
    match word.split_first() {
        Some((first, _)) => *first == b'0',
        None => false,
    }
}

fn at_most_thousand(count: u16) -> Option<u16>
    ensures { result ≡ at_most_thousand count }
{
    if count <= 1000 { Some(count) } else { None }
}
