ghost use Rattle.std.specs.Prelude.{◌≡◌, ◌-◌, ◌^◌, ◌≤◌, IfSome, map};
ghost use Rattle.pq_term.specs.Numbers.{decimal_of};
ghost use Rattle.std.specs.String.{string_bytes};
ghost use Rattle.pq_command.specs.Tasks.{HasSize};
ghost use Rattle.pq_command.specs.Words.{command_for, command_named, command_of, command_on, command_with, size_of};

use pq_term::decimal_value;

/// What the program can be asked to do.
#[derive(Clone, Copy, Debug, PartialEq, Eq)]
pub enum Command {
    /// Write the install of a document.
    Compile,
    /// Write the install of a document, and then what each edit of it changes.
    Session,
    /// Write where packets are after a schedule.
    Replay,
    /// Write an install as JSON text.
    Inspect,
    /// Write how large a document and its install are.
    Summary,
    /// Write how large the generated document of this many switches and its install are.
    SummaryOf { number: u32 },
    /// Write the generated document of this many switches.
    Generate { number: u32 },
    /// Install in the switch with this datapath number, over its control connection.
    Speak { datapath: u64 },
}

/// A number of switches: a decimal number from 2 to 64 without leading zeros.
fn size_of(word: &[u8]) -> Option<u32>
    ensures value { result ≡ size_of word.now }
    ensures within { IfSome result (λ n. (2 ≤ n) × (n ≤ 64)) }
{
    match decimal_value(64, word) {
        Some(number) if number >= 2 => Some(number as u32),
        _ => None,
    }
}

impl Command {
    fn of_word(word: &[u8]) -> Option<Command>
        ensures value { result ≡ command_named word.now }
        ensures sized { IfSome result HasSize }
    {
        if word == b"compile".as_slice() {
            return Some(Command::Compile);
        }
        if word == b"session".as_slice() {
            return Some(Command::Session);
        }
        if word == b"replay".as_slice() {
            return Some(Command::Replay);
        }
        if word == b"inspect".as_slice() {
            return Some(Command::Inspect);
        }
        if word == b"summary".as_slice() {
            return Some(Command::Summary);
        }
        None
    }

    fn of_word_and_number(word: &[u8], number: &[u8]) -> Option<Command>
        ensures value { result ≡ command_on word.now (size_of number.now) }
        ensures sized { IfSome result HasSize }
    {
        let Some(number) = size_of(number) else {
            return None;
        };
        if word == b"summary".as_slice() {
            return Some(Command::SummaryOf { number });
        }
        if word == b"generate".as_slice() {
            return Some(Command::Generate { number });
        }
        None
    }

    fn to_speak(datapath: &[u8]) -> Option<Command>
        ensures value { result ≡ command_for (decimal_of (2 ^ 64 - 1) datapath.now) }
        ensures sized { IfSome result HasSize }
    {
        match decimal_value(u64::MAX, datapath) {
            Some(datapath) => Some(Command::Speak { datapath }),
            None => None,
        }
    }

    fn of_two_words(word: &[u8], number: &[u8]) -> Option<Command>
        ensures value { result ≡ command_with word.now number.now }
        ensures sized { IfSome result HasSize }
    {
        if word == b"speak".as_slice() {
            return Command::to_speak(number);
        }
        Command::of_word_and_number(word, number)
    }

    /// The command that the words after the program's name ask for, if they have the form of one.
    pub fn of_words(words: &[String]) -> Option<Command>
        ensures value { result ≡ command_of (map string_bytes words.now) }
        ensures sized { IfSome result HasSize }
    {
        match words {
            [word] => Command::of_word(word.as_bytes()),
            [word, number] => Command::of_two_words(word.as_bytes(), number.as_bytes()),
            _ => None,
        }
    }
}
