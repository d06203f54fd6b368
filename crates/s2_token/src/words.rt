//! Words and keywords.
ghost use Rattle.std.specs.Prelude.{◌≡◌, length, ◌==◌};
ghost use Rattle.std.specs.List.{filter, find, list_all};
ghost use Rattle.std.specs.Str.{str_eq_ignore_ascii_case};
ghost use Rattle.s2_token.specs.Words.{is_digit, is_name, is_word, is_word_byte, is_word_start, keyword_of, keyword_text, keywords};

use crate::Keyword;

// The keywords by their length.

const TWO: [Keyword; 5] = [
    Keyword::By,
    Keyword::Or,
    Keyword::In,
    Keyword::Is,
    Keyword::On,
];

const THREE: [Keyword; 10] = [
    Keyword::Int,
    Keyword::Key,
    Keyword::Set,
    Keyword::Asc,
    Keyword::Sum,
    Keyword::Min,
    Keyword::Max,
    Keyword::And,
    Keyword::Not,
    Keyword::End,
];

const FOUR: [Keyword; 9] = [
    Keyword::Text,
    Keyword::Sort,
    Keyword::Into,
    Keyword::From,
    Keyword::Desc,
    Keyword::Read,
    Keyword::Only,
    Keyword::Mark,
    Keyword::Null,
];

const FIVE: [Keyword; 12] = [
    Keyword::Table,
    Keyword::Where,
    Keyword::Order,
    Keyword::Limit,
    Keyword::Count,
    Keyword::Begin,
    Keyword::Flush,
    Keyword::Merge,
    Keyword::Evict,
    Keyword::After,
    Keyword::Group,
    Keyword::Draft,
];

const SIX: [Keyword; 13] = [
    Keyword::Create,
    Keyword::Unique,
    Keyword::Option,
    Keyword::Insert,
    Keyword::Values,
    Keyword::Update,
    Keyword::Delete,
    Keyword::Select,
    Keyword::Commit,
    Keyword::Upload,
    Keyword::Vacuum,
    Keyword::Ignore,
    Keyword::Settle,
];

const SEVEN: [Keyword; 1] = [Keyword::Replace];

const EIGHT: [Keyword; 1] = [Keyword::Rollback];

const NINE: [Keyword; 1] = [Keyword::Duplicate];

impl Keyword {
    /// The keyword in upper case.
    #[tactic(auto, unfolding(crate::specs::Words::keyword_text))]
    pub fn text(self) -> &'static [u8]
        ensures { result.now ≡ keyword_text self }
    {
        match self {
            Keyword::Create => b"CREATE",
            Keyword::Table => b"TABLE",
            Keyword::Int => b"INT",
            Keyword::Text => b"TEXT",
            Keyword::Unique => b"UNIQUE",
            Keyword::Key => b"KEY",
            Keyword::Sort => b"SORT",
            Keyword::Option => b"OPTION",
            Keyword::Insert => b"INSERT",
            Keyword::Into => b"INTO",
            Keyword::Values => b"VALUES",
            Keyword::Update => b"UPDATE",
            Keyword::Set => b"SET",
            Keyword::Where => b"WHERE",
            Keyword::Delete => b"DELETE",
            Keyword::From => b"FROM",
            Keyword::Select => b"SELECT",
            Keyword::Order => b"ORDER",
            Keyword::By => b"BY",
            Keyword::Asc => b"ASC",
            Keyword::Desc => b"DESC",
            Keyword::Limit => b"LIMIT",
            Keyword::Count => b"COUNT",
            Keyword::Sum => b"SUM",
            Keyword::Min => b"MIN",
            Keyword::Max => b"MAX",
            Keyword::And => b"AND",
            Keyword::Or => b"OR",
            Keyword::Not => b"NOT",
            Keyword::In => b"IN",
            Keyword::Begin => b"BEGIN",
            Keyword::Read => b"READ",
            Keyword::Only => b"ONLY",
            Keyword::Commit => b"COMMIT",
            Keyword::Rollback => b"ROLLBACK",
            Keyword::Flush => b"FLUSH",
            Keyword::End => b"END",
            Keyword::Merge => b"MERGE",
            Keyword::Upload => b"UPLOAD",
            Keyword::Evict => b"EVICT",
            Keyword::Vacuum => b"VACUUM",
            Keyword::Mark => b"MARK",
            Keyword::After => b"AFTER",
            Keyword::Null => b"NULL",
            Keyword::Is => b"IS",
            Keyword::Group => b"GROUP",
            Keyword::Ignore => b"IGNORE",
            Keyword::Replace => b"REPLACE",
            Keyword::On => b"ON",
            Keyword::Duplicate => b"DUPLICATE",
            Keyword::Draft => b"DRAFT",
            Keyword::Settle => b"SETTLE",
        }
    }
}

pub fn is_word_start(b: u8) -> bool
    ensures { result ≡ is_word_start b }
{
    (65 <= b && b <= 90) || (97 <= b && b <= 122) || b == b'_'
}

pub fn is_digit(b: u8) -> bool
    ensures { result ≡ is_digit b }
{
    48 <= b && b <= 57
}

pub fn is_word_byte(b: u8) -> bool
    ensures { result ≡ is_word_byte b }
{
    is_word_start(b) || is_digit(b)
}

fn are_word_bytes(bytes: &[u8]) -> bool
    ensures { result ≡ list_all is_word_byte bytes.now }
{
    bytes.iter().all(|b| is_word_byte(*b))
}

fn is_word(bytes: &[u8]) -> bool
    ensures { result ≡ is_word bytes.now }
{
    match bytes {
        [] => false,
        [first, later @ ..] => is_word_start(*first) && are_word_bytes(later),
    }
}

fn is_spelled(keyword: Keyword, word: &[u8]) -> bool
    ensures { result ≡ str_eq_ignore_ascii_case (keyword_text keyword) word.now }
{
    keyword.text().eq_ignore_ascii_case(word)
}

fn among(keywords: &[Keyword], word: &[u8]) -> Option<Keyword>
    ensures { result ≡ find (λ k. str_eq_ignore_ascii_case (keyword_text k) word.now) keywords.now }
{
    keywords.iter().copied().find(|k| is_spelled(*k, word))
}

fn of_length(len: usize) -> &'static [Keyword]
    ensures { result.now ≡ filter (λ k. length (keyword_text k) == len) keywords }
{
    match len {
        2 => &TWO,
        3 => &THREE,
        4 => &FOUR,
        5 => &FIVE,
        6 => &SIX,
        7 => &SEVEN,
        8 => &EIGHT,
        9 => &NINE,
        _ => &[],
    }
}

/// The keyword that the word is, in any case.
pub fn keyword_of(word: &[u8]) -> Option<Keyword>
    ensures { result ≡ keyword_of word.now }
{
    among(of_length(word.len()), word)
}

/// Whether the bytes are a name: a letter or an underscore, then letters, digits and underscores, and no keyword in any case.
pub fn is_name(bytes: &[u8]) -> bool
    ensures { result ≡ is_name bytes.now }
{
    is_word(bytes) && keyword_of(bytes).is_none()
}
