//! One field of the settings: set to what a value was read as, or with an item more.

ghost use Rattle.std.specs.Prelude.{◌≡◌, ◌++◌, ◌∷◌, [], OnOk, IfErr, IsSome, Some, None, true, false};
ghost use Rattle.link_words.specs.SettingsView.{texts_of};

use crate::errors::{Refusal, UsageKind};

/// Sets the field to the value, where it was read.
pub(crate) fn set<T: Drop>(field: &mut T, read: Option<T>) -> Result<(), Refusal>
    ensures ok { OnOk result (read ≡ Some field.new) }
    ensures err { IfErr result (λ refusal. (refusal ≡ Refusal.Usage UsageKind.BadValue) × (read ≡ None)) }
{
    match read {
        Some(value) => {
            *field = value;
            Ok(())
        }
        None => Err(Refusal::Usage(UsageKind::BadValue)),
    }
}

/// Takes a value that changes nothing, where it has its form.
pub(crate) fn taken(has_its_form: bool) -> Result<(), Refusal>
    ensures ok { OnOk result (has_its_form ≡ true) }
    ensures err { IfErr result (λ refusal. (refusal ≡ Refusal.Usage UsageKind.BadValue) × (has_its_form ≡ false)) }
{
    if has_its_form {
        Ok(())
    } else {
        Err(Refusal::Usage(UsageKind::BadValue))
    }
}

/// Appends an item to a list.
pub(crate) fn push<T: Drop>(list: &mut Vec<T>, item: T) -> Result<(), Refusal>
    ensures ok { OnOk result (list.new.items ≡ list.old.items ++ item ∷ []) }
    ensures err { IfErr result (λ refusal. refusal ≡ Refusal.Memory) }
{
    list.push(item)?;
    Ok(())
}

/// Appends a text to a list of texts.
pub(crate) fn push_text<'w>(list: &mut Vec<&'w str>, text: &'w str) -> Result<(), Refusal>
    ensures ok { OnOk result (texts_of list.new.items ≡ texts_of list.old.items ++ text.now ∷ []) }
    ensures err { IfErr result (λ refusal. refusal ≡ Refusal.Memory) }
{
    list.push(text)?;
    Ok(())
}
