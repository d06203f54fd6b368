//! The forms of a column block, each with its tag.
ghost use Rattle.std.specs.Prelude.{◌≡◌};
ghost use Rattle.s2_colbytes.specs.Reading.{Gives};
ghost use Rattle.s2_colenc.specs.Column.{form_of, either_form, tag_at};

use s2_colbytes::ColErr;
use s2_value::ColType;

/// The forms of a column block, by rising tag.
#[derive(Clone, Copy, Debug, PartialEq, Eq)]
pub enum Form {
    /// Tag 0: numbers of eight bytes.
    PlainInt,
    /// Tag 1: a base, a width, and distances from the base.
    PackedInt,
    /// Tag 2: the ends of texts and their bytes.
    PlainText,
    /// Tag 3: the distinct values and a code for each value.
    Dictionary,
    /// Tag 4: how often each value stands in turn.
    Runs,
}

// The form of a tag that both types have.
fn either_form(tag: u8) -> Result<Form, ColErr>
    ensures { result ≡ either_form tag }
{
    match tag {
        3 => Ok(Form::Dictionary),
        4 => Ok(Form::Runs),
        _ => Err(ColErr::BadTag),
    }
}

// The form of a tag, in a column of the type.
fn form_of(kind: ColType, tag: u8) -> Result<Form, ColErr>
    ensures { result ≡ form_of kind tag }
{
    match (kind, tag) {
        (ColType::Int, 0) => Ok(Form::PlainInt),
        (ColType::Int, 1) => Ok(Form::PackedInt),
        (ColType::Text, 2) => Ok(Form::PlainText),
        _ => either_form(tag),
    }
}

/// The form that the first byte names, and the bytes after it: `Short`, `BadTag`.
#[tactic(auto, unfolding(crate::specs::Column::tag_at))]
pub fn split_tag(kind: ColType, bytes: &[u8]) -> Result<(Form, &[u8]), ColErr>
    ensures { Gives (λ x. (x.0, x.1.now)) result (tag_at kind bytes.now) }
{
    let [tag, rest @ ..] = bytes else {
        return Err(ColErr::Short);
    };
    let form = form_of(kind, *tag)?;
    Ok((form, rest))
}
