//! What the words of a command may be.

ghost use Rattle.std.specs.Prelude.{◌≡◌, ◌^◌, ◌≤◌, true, option_map, MatchOption};
ghost use Rattle.std.specs.Str.Parse.{digits_value};
ghost use Rattle.cpfactor_lines.specs.Arguments.{is_option, is_numeral, has_form, option_named};
ghost use Rattle.cpfactor_lines.specs.Requests.{form_of, option_of, options_of};

/// What a word has to be.
#[derive(Clone, Copy)]
pub enum Form {
    /// The name of a file: any word that is no option.
    FileName,
    /// A number from `low` to `high`, digits without a leading zero, or `0`.
    Number { low: u64, high: u64 },
}

/// An option of a command.
#[derive(Clone, Copy)]
pub struct OptionRow {
    /// Its word, with the two minus signs.
    pub name: &'static str,
    /// What the word after it has to be; `None` where no word belongs to it.
    pub value: Option<Form>,
}

/// What may follow a command's name.
#[derive(Clone, Copy)]
pub struct CommandRow {
    /// The forms of its plain arguments, all of which have to be there, in their order.
    pub plain: &'static [Form],
    /// Its options, each of which may be there once.
    pub options: &'static [OptionRow],
}

impl Form {
    /// Whether a word has this form.
    #[tactic(auto, unfolding(crate::specs::Arguments::has_form))]
    pub fn fits(self, word: &str) -> bool
        ensures { result ≡ has_form (form_of self) word.now }
    {
        match self {
            Form::FileName => !is_option(word),
            Form::Number { low, high } => number(word).is_some_and(|n| low <= n && n <= high),
        }
    }
}

impl CommandRow {
    /// The option that a word names.
    pub fn option_named(&self, word: &str) -> Option<OptionRow>
        ensures { option_map option_of result ≡ option_named (options_of self.now) word.now }
    {
        self.options
            .iter()
            .find(|option| word == option.name)
            .copied()
    }
}

/// Whether a word is an option: it begins with two minus signs.
#[tactic(auto, unfolding(crate::specs::Arguments::is_option))]
pub fn is_option(word: &str) -> bool
    ensures { result ≡ is_option word.now }
{
    word.as_bytes().starts_with(b"--".as_slice())
}

/// Whether a word is digits without a leading zero, or `0`.
fn is_numeral(word: &str) -> bool
    ensures { result ≡ is_numeral word.now }
{
    let digits = word.as_bytes();
    let [first, more @ ..] = digits else {
        return false;
    };
    if *first == b'0' {
        return more.is_empty();
    }
    digits.iter().all(|byte| byte.is_ascii_digit())
}

/// The number that a word writes: digits without a leading zero, or `0`; `None` for any other word, and where the number is
/// over the largest `u64`.
pub fn number(word: &str) -> Option<u64>
    ensures { MatchOption result (is_numeral word.now ≡ true → 2 ^ 64 ≤ digits_value 10 word.now)
        (λ n. (is_numeral word.now ≡ true) × (n ≡ digits_value 10 word.now)) }
{
    if !is_numeral(word) {
        return None;
    }
    word.parse().ok()
}
