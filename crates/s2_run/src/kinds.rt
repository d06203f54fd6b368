//! The names of the kinds of fault.
ghost use Rattle.std.specs.Prelude.{◌≡◌};
ghost use Rattle.s2_run.specs.Texts.{kind_name};

use s2_judge::Kind;

/// The name of a kind of fault, as it is written.
pub fn kind_name(kind: Kind) -> &'static [u8]
    ensures { result.now ≡ kind_name kind }
{
    match kind {
        Kind::TooLong => b"TooLong",
        Kind::NotUtf8 => b"NotUtf8",
        Kind::BadToken => b"BadToken",
        Kind::Syntax => b"Syntax",
        Kind::LiteralRange => b"LiteralRange",
        Kind::LiteralLong => b"LiteralLong",
        Kind::Misplaced => b"Misplaced",
        Kind::OptionValue => b"OptionValue",
        Kind::Limit => b"Limit",
        Kind::UnknownName => b"UnknownName",
        Kind::RepeatedName => b"RepeatedName",
        Kind::WrongType => b"WrongType",
        Kind::JobOrder => b"JobOrder",
        Kind::NotBuilt => b"NotBuilt",
    }
}
