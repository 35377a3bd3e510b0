//! Reading the words after a command's name, by the command's row.

ghost use Rattle.std.specs.Prelude.{◌≡◌, ◌+◌, ◌*◌, ◌<◌, ◌≤◌, true, length, Some, None, option_map, IfOk, IfErr};
ghost use Rattle.std.specs.List.{list_all};
ghost use Rattle.std.specs.Str.Parse.{digits_value};
ghost use Rattle.cpfactor_lines.specs.Arguments.{is_option, has_word, can_be_read, fault_place, option_value, word_at};
ghost use Rattle.cpfactor_lines.specs.Requests.{texts, plain_of, options_of, IsNumberOption, IsNumberAt};
ghost use Rattle.cpfactor_lines.specs.ReaderStates.{most_plain, HasRead, ArePlaces};

use crate::command::Usage;
use crate::row::{CommandRow, Form, is_option, number};

/// The most plain arguments that a command has.
pub const MOST_PLAIN: usize = 3;

/// What was read so far of the words after a command's name.
#[derive(Clone, Copy)]
pub struct ArgumentReader {
    /// What the next word has to be for the option before it.
    pub wanted: Option<Form>,
    /// How many plain arguments there were.
    pub count: usize,
    /// Their places, from 0.
    pub places: [usize; MOST_PLAIN],
}

impl ArgumentReader {
    /// Whether the next word, at `place`, can be read.
    fn can_read(&self, row: &CommandRow, words: &[String], place: usize) -> bool
        requires within { place < length words.now }
        requires stands { HasRead row.now (texts words.now) place self.now }
        ensures { result ≡ can_be_read (plain_of row.now) (options_of row.now) (texts words.now) place }
    {
        let word = words[place].as_str();
        if let Some(form) = self.wanted {
            return form.fits(word);
        }
        if is_option(word) {
            return row.option_named(word).is_some() && !is_among(word, &words[..place]);
        }
        row.plain
            .get(self.count)
            .is_some_and(|form| form.fits(word))
    }

    /// Reads the next word, at `place`.
    fn advance(&mut self, row: &CommandRow, words: &[String], place: usize)
        requires within { place < length words.now }
        requires few { length row.now.plain.now ≤ most_plain }
        requires stands { HasRead row.now (texts words.now) place self.old }
        requires reads { can_be_read (plain_of row.now) (options_of row.now) (texts words.now) place ≡ true }
        ensures { HasRead row.now (texts words.now) (place + 1) self.new }
    {
        let word = words[place].as_str();
        if self.wanted.is_none() && !is_option(word) {
            self.places[self.count] = place;
            self.count += 1;
        }
        self.wanted = row.option_named(word).and_then(|option| option.value);
    }
}

/// Whether a word is one of these.
pub fn is_among(word: &str, words: &[String]) -> bool
    ensures { result ≡ has_word (texts words.now) word.now }
{
    words.iter().any(|other| other.as_str() == word)
}

/// The places of a command's plain arguments among the words after its name, in the order of the row.
///
/// Refused at the position of the first word that cannot be read, or of the word that is missing.
pub fn plain_places(row: &CommandRow, words: &[String]) -> Result<[usize; MOST_PLAIN], Usage>
    requires named { list_all (λ o. is_option o.name) (options_of row.now) ≡ true }
    requires few_plain { length row.now.plain.now ≤ most_plain }
    // At most so many words can be read: each plain argument once, and each option with its number. So each position fits.
    requires few_words { length row.now.plain.now + 2 * length row.now.options.now ≤ 30 }
    ensures read { IfOk result (λ places. ArePlaces row.now (texts words.now) places) }
    ensures usage { IfErr result (λ usage. option_map (λ place. place + 2)
        (fault_place (plain_of row.now) (options_of row.now) (texts words.now)) ≡ Some usage.position) }
{
    let mut reader = ArgumentReader {
        wanted: None,
        count: 0,
        places: [0; MOST_PLAIN],
    };
    for place in 0..words.len() {
        if !reader.can_read(row, words, place) {
            return Err(Usage {
                position: place as u32 + 2,
            });
        }
        reader.advance(row, words, place);
    }
    if reader.wanted.is_some() || reader.count != row.plain.len() {
        return Err(Usage {
            position: words.len() as u32 + 2,
        });
    }
    Ok(reader.places)
}

/// The number after the option of this name, or the default where the words name none. The words are those that the row
/// reads.
pub fn option_value(row: &CommandRow, words: &[String], name: &str, default: u64) -> u64
    requires read { fault_place (plain_of row.now) (options_of row.now) (texts words.now) ≡ None }
    requires numbers { IsNumberOption (options_of row.now) name.now }
    ensures { result ≡ option_value (texts words.now) name.now default }
{
    let Some(place) = words.iter().position(|word| word.as_str() == name) else {
        return default;
    };
    number(&words[place + 1]).unwrap()
}

/// The number that the word at a place writes, which has the form of a number.
pub fn number_argument(words: &[String], place: usize) -> u64
    requires within { place < length words.now }
    requires number { IsNumberAt (texts words.now) place }
    ensures { result ≡ digits_value 10 (word_at (texts words.now) place) }
{
    number(&words[place]).unwrap()
}
