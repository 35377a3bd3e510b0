//! The command line.

/// What is repeated.
#[derive(Clone, Copy, Debug, PartialEq, Eq)]
pub enum Operation {
    /// Exchanges of a tableau.
    Exchanges,
    /// Sums of fractions.
    Additions,
    /// Products of fractions.
    Products,
    /// Splits of cones.
    Cones,
}

/// An operation, and how many times it is to be done.
#[derive(Clone, Copy, Debug, PartialEq, Eq)]
pub struct Command {
    /// What is repeated.
    pub operation: Operation,
    /// How many times.
    pub count: u64,
}

impl Command {
    /// The command that the words after the program's name ask for: an operation's name and a number in decimal digits. `None`
    /// where they are anything else.
    pub fn from_words(words: &[String]) -> Option<Command> {
        let [name, count] = words else {
            return None;
        };
        let operation = operation_of(name.as_str())?;
        let count = plain_number(count.as_str())?;
        Some(Command { operation, count })
    }
}

fn operation_of(name: &str) -> Option<Operation> {
    match name {
        "exchanges" => Some(Operation::Exchanges),
        "additions" => Some(Operation::Additions),
        "products" => Some(Operation::Products),
        "cones" => Some(Operation::Cones),
        _ => None,
    }
}

// A number in decimal digits alone, of 64 bits.
fn plain_number(text: &str) -> Option<u64> {
    if text.bytes().all(|byte| byte.is_ascii_digit()) {
        text.parse().ok()
    } else {
        None
    }
}
