//! What may stand after the name of an export, between commas.

ghost use Rattle.std.specs.Prelude.{◌≡◌, option_map};
ghost use Rattle.directives.specs.Attribute.{form_by, attribute_of, attributes_of, attributes_after};
ghost use Rattle.directives.specs.Taken.{attributes_said, none_taken, with_attribute};

use crate::item::ExportForm;
use crate::names::lookup;
use crate::number::decimal_up_to;

/// One attribute of an export.
#[derive(Clone, Copy)]
pub(crate) enum Attribute {
    NoName,
    DataItem,
    Constant,
    PrivateItem,
    Ordinal(u16),
}

const ATTRIBUTES: [(&[u8], Attribute); 4] = [
    (b"NONAME", Attribute::NoName),
    (b"DATA", Attribute::DataItem),
    (b"CONSTANT", Attribute::Constant),
    (b"PRIVATE", Attribute::PrivateItem),
];

/// Which attributes stand.
#[derive(Clone, Copy)]
pub(crate) struct Attributes {
    pub(crate) ordinal: Option<u16>,
    pub(crate) noname: bool,
    data_item: bool,
    constant: bool,
    pub(crate) private_item: bool,
}

/// The attributes after the first comma, where something stands there.
pub(crate) fn attributes_after(text: &[u8]) -> Option<Attributes>
    ensures { option_map attributes_said result ≡ attributes_after text.now }
{
    match text {
        [] => Some(none_taken()),
        [_, rest @ ..] => attributes_of(rest),
    }
}

/// The attributes of a text, with commas between, no two of one kind.
fn attributes_of(text: &[u8]) -> Option<Attributes>
    ensures { option_map attributes_said result ≡ attributes_of text.now }
{
    let mut taken = none_taken();
    for part in text.split(|b| *b == b',') {
        taken = with_attribute(taken, attribute_of(part)?)?;
    }
    Some(taken)
}

fn none_taken() -> Attributes
    ensures { result ≡ none_taken }
{
    Attributes {
        ordinal: None,
        noname: false,
        data_item: false,
        constant: false,
        private_item: false,
    }
}

/// One attribute more, none of a kind that stands already.
fn with_attribute(taken: Attributes, one: Attribute) -> Option<Attributes>
    ensures { result ≡ with_attribute taken one }
{
    match one {
        Attribute::NoName => (!taken.noname).then_some(Attributes {
            noname: true,
            ..taken
        }),
        Attribute::DataItem => (!taken.data_item).then_some(Attributes {
            data_item: true,
            ..taken
        }),
        Attribute::Constant => (!taken.constant).then_some(Attributes {
            constant: true,
            ..taken
        }),
        Attribute::PrivateItem => (!taken.private_item).then_some(Attributes {
            private_item: true,
            ..taken
        }),
        Attribute::Ordinal(number) => taken.ordinal.is_none().then_some(Attributes {
            ordinal: Some(number),
            ..taken
        }),
    }
}

/// The form of an export with these: data counts before a constant.
pub(crate) fn form_of(taken: Attributes) -> ExportForm
    ensures { result ≡ form_by taken.data_item taken.constant }
{
    if taken.data_item {
        return ExportForm::Data;
    }
    if taken.constant {
        return ExportForm::Const;
    }
    ExportForm::Code
}

/// One attribute: a word of the table, or an ordinal after `@`.
#[tactic(auto, unfolding(crate::specs::Attribute::attribute_of))]
fn attribute_of(text: &[u8]) -> Option<Attribute>
    ensures { result ≡ attribute_of text.now }
{
    if text.is_empty() || text[0] != b'@' {
        return lookup(&ATTRIBUTES, text);
    }
    let (_, digits) = text.split_at(1);
    let ordinal = decimal_up_to(digits, 65_535)?;
    Some(Attribute::Ordinal(ordinal as u16))
}
